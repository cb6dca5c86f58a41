// The free pages by a map: claims on them, and another map that is followed.
use mt_base::Refusal;
use mt_space::Space;
use std::test::Fail;

/// A map whose first four pages are taken.
fn first_map() -> [u8; 4096] {
    let mut map = [0u8; 4096];
    map[0] = 1;
    map[1] = 1;
    map[2] = 1;
    map[3] = 2;
    map
}

/// What claims of 13 pages, of 12 and of one more answer.
fn three_claims(space: &mut Space) -> [Result<(), Refusal>; 3] {
    [space.claim(13), space.claim(12), space.claim(1)]
}

/// Gives the twelve pages back, and follows a map: how many are reserved, and then free.
fn follows(space: &mut Space, map: &[u8; 4096]) -> [u16; 2] {
    if space.reserved() != 12 {
        return [0; 2];
    }
    space.give_back(12);
    let reserved = space.reserved();
    space.follow(map);
    [reserved, space.free()]
}

#[test]
fn pages_are_reserved(rt: HostRuntime) -> Result<(), Fail> {
    let mut map = first_map();
    let mut space = Space::of(rt.alloc(), &map, 16)?;
    let free = space.free();
    let claims = three_claims(&mut space);
    let claimed = [space.free(), space.reserved()];
    map[4] = 3;
    let follows = follows(&mut space, &map);
    let again = [space.claim(12), space.claim(11)];
    drop(space);
    assert!(rt; free == 12 && claims == [Err(Refusal::NoRoom), Ok(()), Err(Refusal::NoRoom)]);
    assert!(rt; claimed == [12, 12]);
    assert!(rt; follows == [0, 11]);
    assert!(rt; again == [Err(Refusal::NoRoom), Ok(())]);
    Ok(())
}
