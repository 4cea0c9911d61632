use preferences::Preference;
use ranks::{ByRank, RankList, RankRefusal};
use std::array;
use std::test::*;

#[test]
fn the_first_list_goes_by_number(rt: HostRuntime) -> Result<(), Fail> {
    let list = RankList::by_number();
    let by_rank = ByRank { list: &list };
    assert!(rt; by_rank.comes_before(0, None, 3, 4));
    assert!(rt; !by_rank.comes_before(0, None, 4, 3));
    assert!(rt; !by_rank.comes_before(0, None, 3, 64));
    Ok(())
}

#[test]
fn a_repeated_rank_is_refused_and_changes_nothing(rt: HostRuntime) -> Result<(), Fail> {
    let mut list = RankList::by_number();
    assert_eq!(rt; list.replace([0; 64]), Err(RankRefusal::NotEachOnce));
    assert_eq!(rt; RankRefusal::NotEachOnce.number(), 20);
    assert!(rt; ByRank { list: &list }.comes_before(0, None, 62, 63));
    Ok(())
}

#[test]
fn ranks_turned_round_turn_the_preference(rt: HostRuntime) -> Result<(), Fail> {
    let mut list = RankList::by_number();
    // By `as`: proved to fit, and there is no `From` to a narrower type.
    let turned = array::from_fn(|task| 63 - task as u8);
    assert_eq!(rt; list.replace(turned), Ok(()));
    assert!(rt; ByRank { list: &list }.comes_before(0, None, 4, 3));
    Ok(())
}
