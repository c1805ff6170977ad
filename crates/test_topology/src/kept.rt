// A changed lot is judged as it is, and the cells that a work keeps are found again once it has the shape that they were made of.
use crate::definitions::square;
use feature_store::{Kind, Name, Shape};
use grid_plane::Rect;
use rule_core::{RuleRow, Side, Work};
use rule_words::RuleKind;
use rules::PosterRules;
use std::alloc::Global;
use std::test::Fail;
use topo_core::Topology;

fn lot(alloc: Global, x: i16, y: i16) -> Result<Shape, Fail> {
    Ok(square(alloc, 1, 1, x, y)?.shape().try_copy(alloc)?)
}

// Adds two squares that overlap, of a class whose polygons must not.
fn add_lots(alloc: Global, town: &mut Topology<PosterRules>) -> Result<(), Fail> {
    town.add_class(Name::of(b"lots").ok_or("no name")?, Kind::Polygon)?;
    town.add_rule(RuleRow {
        kind: RuleKind::PolygonMustNotOverlap,
        origin: Side {
            class: 1,
            subtype: None,
        },
        dest: None,
    })?;
    town.add(1, lot(alloc, 0, 0)?)?;
    town.add(1, lot(alloc, 5, 5)?)?;
    Ok(())
}

// How many errors there are after a validation, and how many pairs were judged so far.
fn validated(town: &mut Topology<PosterRules>, work: &mut Work) -> Result<(usize, u64), Fail> {
    town.validate(Rect::whole(), work)?;
    Ok((town.errors().len(), work.judged()))
}

// What is found as they stand, with the second moved away, and moved back; and whether the last validation found kept cells. Its
// caller owns the topology: a function that owns one is proved once more for each of its ends.
fn move_a_lot(
    alloc: Global,
    town: &mut Topology<PosterRules>,
    work: &mut Work,
) -> Result<((usize, u64), (usize, u64), (usize, u64), bool), Fail> {
    add_lots(alloc, town)?;
    let first = validated(town, work)?;
    town.change(2, lot(alloc, 10, 5)?)?;
    let away = validated(town, work)?;
    town.change(2, lot(alloc, 5, 5)?)?;
    let hits = work.hits();
    let back = validated(town, work)?;
    Ok((first, away, back, work.hits() > hits))
}

#[test]
fn a_changed_lot_is_judged_as_it_is(rt: HostRuntime) -> Result<(), Fail> {
    let mut town = Topology::new(rt.alloc(), PosterRules);
    let mut work = Work::new();
    let found = move_a_lot(rt.alloc(), &mut town, &mut work)?;
    assert_eq!(rt; found, ((1, 2), (0, 4), (1, 6), true));
    Ok(())
}
