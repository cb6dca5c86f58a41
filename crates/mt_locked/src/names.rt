// By which name a type knows its mark.
use std::marker::Brand;

/// Names which mark it is, the base that its kernel began on, and the book that stood when the mark was made, for
/// contracts alone. Code that is generic in a name holds passes, tokens and what is shared; who calls it picks the
/// name.
pub trait Naming {
    ghost use Rattle.atomic_table.specs.Seated.{TableId};
    ghost use Rattle.mt_model.specs.declared.history.Committed.{Committed};
    ghost use Rattle.mt_model.specs.declared.tables.Base.{Base};
    ghost use Rattle.std.specs.Prelude.{List};

    ghost mark: { TableId };

    ghost base: { Base };

    ghost book: { List Committed };
}

impl Naming for Brand {
    ghost use Rattle.mt_locked.specs.Names.{no_mark, no_base};
    ghost use Rattle.std.specs.Prelude.{[]};

    ghost mark = { no_mark };

    ghost base = { no_base };

    ghost book = { [] };
}
