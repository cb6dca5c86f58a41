// Which pages a restart writes: which into their slots, and which as images into the next area. `area_renewal` writes
// them.
ghost use Rattle.std.specs.Prelude.{◌↔◌, IsTrue};
ghost use Rattle.std.specs.List.{AllByRecursion};
ghost use Rattle.mt_frame.specs.Grammar.{IsRecord};
ghost use Rattle.mt_frame.specs.SlotText.{IsSlot};
ghost use Rattle.mt_restart.specs.Found.{CanTurn};

use crate::first_images::images_fit;
use mt_base::limits::MAX_EPOCH;
use mt_frame::{MasterSlot, Record};
use mt_log::AreaPlace;

/// Which pages a restart writes where.
#[derive(Drop)]
pub(crate) struct Marks {
    // those with an image in the ruling area: they are written in place before it is left
    pub(crate) imaged: Vec<bool>,
    // those that are neither there nor in their slots: the next area begins with images of them
    pub(crate) lost: Vec<bool>,
    pub(crate) images: Vec<Record>,
}

// Whether another slot may rule next, whose area has room for these images.
pub(crate) fn can_turn(ruling: &MasterSlot, images: &[Record]) -> bool
    requires slot { IsSlot ruling.now }
    requires grammar { AllByRecursion IsRecord images.now }
    ensures { IsTrue result ↔ CanTurn ruling.now images.now }
{
    ruling.epoch < MAX_EPOCH && images_fit(images, AreaPlace::named_by(ruling).size())
}
