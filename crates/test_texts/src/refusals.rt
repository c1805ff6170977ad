// The text of each refusal.
use grid_plane::Name;
use reply_text::{Cause, Refusal, Reply, push_reply};
use rules::PosterRules;
use script_text::LineRefusal;
use shape::ShapeFault;
use std::test::Fail;
use topo_core::Topology;

const REFUSALS: [Refusal; 36] = [
    Refusal::Line(LineRefusal::NotALine),
    Refusal::Line(LineRefusal::TooLong),
    Refusal::Change(Cause::ClassTaken),
    Refusal::Change(Cause::ClassesFull),
    Refusal::Change(Cause::NoClass),
    Refusal::Change(Cause::Unfit),
    Refusal::Change(Cause::RuleThere),
    Refusal::Change(Cause::RulesFull),
    Refusal::Change(Cause::NoRule),
    Refusal::SessionOpen,
    Refusal::SessionsFull,
    Refusal::NoSession,
    Refusal::Change(Cause::WrongKind),
    Refusal::Line(LineRefusal::OffGrid { at: 7 }),
    Refusal::Line(LineRefusal::OutOfReach { at: 3 }),
    Refusal::Line(LineRefusal::Unsupported { at: 0 }),
    Refusal::Line(LineRefusal::NotClosed { ring: 2 }),
    Refusal::Line(LineRefusal::Invalid(ShapeFault::TooFew { part: 1 })),
    Refusal::Line(LineRefusal::Invalid(ShapeFault::TooMany { count: 2001 })),
    Refusal::Line(LineRefusal::Invalid(ShapeFault::Cross { i: 0, j: 2 })),
    Refusal::Line(LineRefusal::Invalid(ShapeFault::Along { i: 1, j: 3 })),
    Refusal::Change(Cause::NoFeature),
    Refusal::Change(Cause::HandlesSpent),
    Refusal::NothingToUndo,
    Refusal::NothingToRedo,
    Refusal::Line(LineRefusal::Reversed),
    Refusal::Change(Cause::NoError),
    Refusal::Change(Cause::AlreadySo),
    Refusal::VersionTaken,
    Refusal::VersionsFull,
    Refusal::NoVersion,
    Refusal::SessionsOpen,
    Refusal::Stale(7),
    Refusal::VersionsThere,
    Refusal::NothingToFix,
    Refusal::BadShape(ShapeFault::Cross { i: 1, j: 3 }),
];

const TEXT: &[u8] = b"refused E01
refused E02
refused E03
refused E04
refused E05
refused E06
refused E07
refused E08
refused E09
refused E10
refused E11
refused E12
refused E13
refused E14 7
refused E15 3
refused E16 0
refused E17 2
refused E18 few 1
refused E18 many 2001
refused E18 cross 0 2
refused E18 along 1 3
refused E19
refused E21
refused E22
refused E23
refused E24
refused E25
refused E26
refused E27
refused E28
refused E29
refused E30
refused E31 7
refused E32
refused E34
refused E18 cross 1 3
";

#[test]
fn each_refusal_once(rt: HostRuntime) -> Result<(), Fail> {
    let alloc = rt.alloc();
    let topology = Topology::new(alloc, PosterRules);
    let mut out = Vec::new(alloc);
    for refusal in REFUSALS {
        push_reply(&mut out, &topology, &Reply::Refused(refusal))?;
    }
    assert_eq!(rt; out.as_slice(), TEXT);
    Ok(())
}

#[test]
fn a_holder_is_named(rt: HostRuntime) -> Result<(), Fail> {
    let alloc = rt.alloc();
    let topology = Topology::new(alloc, PosterRules);
    let name = Name::of(b"ann").ok_or("no name")?;
    let mut out = Vec::new(alloc);
    push_reply(&mut out, &topology, &Reply::Refused(Refusal::HeldBy(name)))?;
    assert_eq!(rt; out.as_slice(), b"refused E20 ann\n".as_slice());
    Ok(())
}
