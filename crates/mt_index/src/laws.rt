// Laws of the index, for all pages there are.
ghost use Rattle.mt_index.specs.Laws.{NamesByPattern, BeginsEmpty, KeepsMap, KeepsForm};

/// The pointers to a bucket of depth `l` are just those whose numbers have the same low `l` bits
/// (Fagin 1979).
pub fn a_bucket_is_named_by_its_pattern()
    ensures { NamesByPattern }
{}

/// An index whose only bucket is page 3, without entries, is the empty map.
pub fn a_formatted_index_is_the_empty_map()
    ensures { BeginsEmpty }
{}

/// If other layers change their own pages, the index stays the same map, and well formed: each bucket page stands in
/// a chain as before.
pub fn other_changes_keep_the_map()
    ensures map { KeepsMap }
    ensures formed { KeepsForm }
{}
