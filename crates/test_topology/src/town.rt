// A store and a topology as a library: each call that takes memory succeeds.
use feature_store::{Kind, Name, Shape, Store};
use grid_plane::{GridPoint, Rect};
use rule_core::{RuleRow, Side, Work};
use rule_words::RuleKind;
use rules::PosterRules;
use std::test::Fail;
use topo_core::Topology;

fn well(x: i64) -> Result<Shape, Fail> {
    Ok(Shape::point(GridPoint::at(x, 0).ok_or("beyond the reach")?))
}

#[test]
fn features_come_and_go(rt: HostRuntime) -> Result<(), Fail> {
    let alloc = rt.alloc();
    let mut store = Store::new(alloc);
    store.add_class(Name::of(b"wells").ok_or("no name")?, Kind::Point)?;
    assert_eq!(rt; store.add(1, well(1)?)?, 1);
    assert_eq!(rt; store.add(1, well(2)?)?, 2);
    let mut kept = None;
    store.swap(1, &mut kept)?;
    assert!(rt; store.get(1).is_none());
    store.swap(1, &mut kept)?;
    assert!(rt; store.get(1).is_some());
    assert_eq!(rt; store.try_copy(alloc)?.len(), 2);
    Ok(())
}

// How many errors there are after a validation of a topology that has to be sound before it and behind it.
fn errors_after(town: &mut Topology<PosterRules>, work: &mut Work) -> Result<usize, Fail> {
    if town.check()?.is_some() {
        return Err(Fail::from("unsound before"));
    }
    town.validate(Rect::whole(), work)?;
    if town.check()?.is_some() {
        return Err(Fail::from("unsound behind"));
    }
    Ok(town.errors().len())
}

// How many errors there are: of two wells apart, with the second moved to the first, and with the first deleted.
fn change_and_delete(
    town: &mut Topology<PosterRules>,
    work: &mut Work,
) -> Result<(usize, usize, usize), Fail> {
    town.add_class(Name::of(b"wells").ok_or("no name")?, Kind::Point)?;
    town.add_rule(RuleRow {
        kind: RuleKind::PointMustBeDisjoint,
        origin: Side {
            class: 1,
            subtype: None,
        },
        dest: None,
    })?;
    town.add(1, well(5)?)?;
    town.add(1, well(6)?)?;
    let apart = errors_after(town, work)?;
    town.change(2, well(5)?)?;
    let moved = errors_after(town, work)?;
    town.delete(1)?;
    let deleted = errors_after(town, work)?;
    Ok((apart, moved, deleted))
}

#[test]
fn a_change_a_deletion_and_a_validation(rt: HostRuntime) -> Result<(), Fail> {
    let mut town = Topology::new(rt.alloc(), PosterRules);
    let mut work = Work::new();
    assert_eq!(rt; change_and_delete(&mut town, &mut work)?, (0, 1, 0));
    assert_eq!(rt; town.dirt().len(), 0);
    Ok(())
}
