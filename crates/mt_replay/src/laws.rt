// Laws of restarts, each the contract of a function with nothing to do.
ghost use Rattle.mt_replay.specs.Laws.{RestartFindsBase, EachInverseFinds, OnlyOwnPagesMatter};

/// Of records that are recoverable the losers' operations are undone by inverses, the latest end first. That leads to
/// good pages that hold the base that the records represent.
pub fn restart_finds_the_base()
    ensures { RestartFindsBase }
{
    mt_model::laws::bounds_are_kept();
}

/// Over records that are recoverable each inverse finds what its record says, and free pages, on the pages that
/// those before it left.
pub fn each_inverse_finds()
    ensures { EachInverseFinds }
{
    mt_model::laws::bounds_are_kept();
}

/// Pages that are the same below their number are equally good, and hold the same base.
pub fn only_own_pages_matter()
    ensures { OnlyOwnPagesMatter }
{
    mt_index::other_changes_keep_the_map();
}
