// Hashes, by vectors from elsewhere.
use mt_bucket::hash;
use std::test::Fail;

#[test]
fn hashes_are_the_outside_ones(rt: HostRuntime) -> Result<(), Fail> {
    let hashes = [hash(b""), hash(b"a"), hash(b"b"), hash(b"c")];
    let wanted = [
        0xcbf2_9ce4_8422_2325,
        0xaf63_dc4c_8601_ec8c,
        0xaf63_df4c_8601_f1a5,
        0xaf63_de4c_8601_eff2,
    ];
    assert!(rt; hashes == wanted);
    Ok(())
}
