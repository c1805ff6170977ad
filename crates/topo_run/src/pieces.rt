ghost use Rattle.std.specs.Prelude.{◌≡◌, ◌==◌, ◌≤◌, ◌<◌, ◌++◌, ◌||◌, ℕ, List, [], true, false, length, take, IfOk, OnOk, OnErr, IsErrOf};
ghost use Rattle.std.specs.Io.KnownBytes.{Appends};
ghost use Rattle.text_terms.specs.Lines.{lines_of, without_cr};
ghost use Rattle.topology_terms.specs.Project.{IsOrdered};
ghost use Rattle.topology_terms.specs.Settled.{IsSettled};
ghost use Rattle.topology_terms.specs.Sound.{IsSound};
ghost use Rattle.version_terms.specs.Versions.{root_of};
ghost use Rattle.script_terms.specs.State.{OfAll, started, tree_of, desk_of};
ghost use Rattle.script_terms.specs.Headline.{Invariant, SoundHeadline};
ghost use Rattle.script_terms.specs.Keeping.{IsKeeping};
ghost use Rattle.script_terms.specs.Run.{Step, IsPrefix, WritesPrefix};
ghost use Rattle.outside_terms.specs.Faults.{Rose};
ghost use Rattle.topo_run.specs.Told.{Keeps};
ghost use Rattle.topo_run.specs.Replayers.{HasNoLf, Holds, EndsLine, Answers, BreaksIn, tail_of};

use crate::answer::answer_line;
use crate::lines::{split_at_lf, without_cr};
use crate::stops::Stop;
use crate::write::write_all;
use command_answers::World;
use grid_plane::NoMemory;
use rules::PosterRules;
use std::alloc::Global;
use std::marker::Model;
use topo_core::Topology;
use topo_outside::{Sink, SinkFault};

// So many bytes of replies are gathered before they are written.
const GATHERED: usize = 65_536;

// So many bytes of a line that has not ended yet are held: two more than a line may have.
const REST_LIMIT: usize = 1_048_578;

/// Whether one of the two is.
pub fn either(a: bool, b: bool) -> bool
    ensures { result ≡ (a || b) }
{
    a || b
}

/// Writes the replies that are gathered, where they are many; what is left of them is gathered still.
pub fn write_if_many<K: Sink>(sink: &mut K, gathered: &mut Vec<u8>) -> Result<(), SinkFault>
    ensures ok { OnOk result ((front : List ℕ) × (gathered.old.items ≡ front ++ gathered.new.items) × Appends (K.written sink.old) (K.written sink.new) front) }
    ensures err { OnErr result ((front : List ℕ) × IsPrefix front (gathered.old.items) × Appends (K.written sink.old) (K.written sink.new) front × (length front < length gathered.old.items)) }
    ensures later { K.faults sink.old ≤ K.faults sink.new }
    ensures failed { IsErrOf result SinkFault.Failed → Rose (K.faults sink.old) (K.faults sink.new) }
{
    if gathered.len() < GATHERED {
        return Ok(());
    }
    write_all(sink, gathered)?;
    gathered.clear();
    Ok(())
}

// Adds to the rest, up to its limit.
fn hold_more(rest: &mut Vec<u8>, more: &[u8]) -> Result<(), NoMemory>
    requires held { Holds rest.old.items rest.old.items }
    requires unended { HasNoLf more.now }
    ensures ok { OnOk result (rest.new.items ≡ take 1048578 (rest.old.items ++ more.now)) }
    ensures kept { Holds rest.new.items rest.new.items }
{
    let room = REST_LIMIT - rest.len();
    rest.extend_from_slice(&more[..room.min(more.len())])?;
    Ok(())
}

// Answers the line of which `end` is the end, and what is held the rest. Where nothing is held the line is not copied.
fn answer_ended(
    alloc: Global,
    world: &mut World,
    rest: &mut Vec<u8>,
    end: &[u8],
    out: &mut Vec<u8>,
) -> Result<bool, NoMemory>
    requires held { Holds rest.old.items rest.old.items }
    requires unended { HasNoLf end.now }
    ensures ok { IfOk result (λ refused. (tail : List ℕ) → Holds tail rest.old.items → (text : List ℕ) × (out.new.items ≡ out.old.items ++ text)
        × Step world.old (without_cr (tail ++ end.now)) (record { text = text; after = world.new; refused = refused }) × Keeps world.old world.new) }
    ensures kept { Holds rest.new.items rest.new.items }
{
    if rest.is_empty() {
        return answer_line(alloc, world, without_cr(end), out);
    }
    hold_more(rest, end)?;
    answer_line(alloc, world, without_cr(rest), out)
}

/// The state of a run over a script that comes in pieces: the topology with its open sessions, the beginning of a line that has
/// not ended yet, and whether some line so far was refused. A line that lies in one piece is answered from there; of one that
/// does not, at most 1,048,578 bytes are held: a line that begins with so many is refused, whatever follows.
#[derive(Drop)]
pub struct Replayer {
    alloc: Global,
    world: World,
    rest: Vec<u8>,
    refused: bool,
}

impl Model for Replayer {
    ghost use Rattle.topo_run.specs.Replayers.{Replaying, Holds};

    ghost Value = { Replaying };

    ghost view = { λ r. record { state = r.world; rest = r.rest.items; refused = r.refused } };

    ghost invariant = { λ r. Holds r.rest.items r.rest.items };
}

impl Replayer {
    /// Begins a run from this topology as `default`, with no other version and no session.
    pub fn new(alloc: Global, start: Topology<PosterRules>) -> Result<Replayer, NoMemory>
        ensures { IfOk result (λ r. r ≡ record { state = started start; rest = []; refused = false }) }
    {
        Ok(Replayer::of(alloc, World::of(alloc, start)))
    }

    /// Begins a run from this state.
    pub(crate) fn of(alloc: Global, world: World) -> Replayer
        ensures { result ≡ record { state = world; rest = []; refused = false } }
    {
        Replayer {
            alloc,
            world,
            rest: Vec::new(alloc),
            refused: false,
        }
    }

    /// The number of bytes that are held of a line that has not ended yet.
    pub fn held(&self) -> usize
        ensures value { result ≡ length self.now.rest }
        ensures most { result ≤ 1048578 }
        ensures unended { Holds self.now.rest self.now.rest }
    {
        self.rest.len()
    }

    // Whether nothing is held.
    fn holds_none(&self) -> bool
        ensures { result ≡ (length self.now.rest == 0) }
    {
        self.rest.is_empty()
    }

    /// Whether some line so far was refused.
    pub fn refused(&self) -> bool
        ensures { result ≡ self.now.refused }
    {
        self.refused
    }

    /// The topology of the version `default`, without the sessions.
    pub fn root(&self) -> &Topology<PosterRules>
        ensures { result.now ≡ root_of (tree_of self.now.state) }
    {
        self.world.root()
    }

    /// The laws of its state.
    pub(crate) fn state_law(&self)
        ensures sound { OfAll IsSound self.now.state → OfAll SoundHeadline self.now.state }
        ensures invariant { OfAll IsSound self.now.state → OfAll IsSettled self.now.state → OfAll Invariant self.now.state }
        ensures ordered { OfAll IsOrdered self.now.state }
        ensures keeping { IsKeeping (desk_of self.now.state) }
    {
        self.world.headline_law();
    }

    // Answers the line of which `end` is the end, and what is held the rest: its reply goes to the end of `out`.
    fn end_line(&mut self, end: &[u8], out: &mut Vec<u8>) -> Result<(), NoMemory>
        requires { HasNoLf end.now }
        ensures { OnOk result ((tail : List ℕ) → Holds tail self.old.rest → EndsLine self.old (tail ++ end.now) out.old.items out.new.items self.new) }
    {
        let bad = answer_ended(self.alloc, &mut self.world, &mut self.rest, end, out)?;
        self.rest.clear();
        self.refused = either(self.refused, bad);
        Ok(())
    }

    // Holds what follows the last LF.
    fn hold(&mut self, left: &[u8]) -> Result<(), NoMemory>
        requires { HasNoLf left.now }
        ensures { OnOk result (self.new ≡ record self.old { rest = take 1048578 (self.old.rest ++ left.now) }) }
    {
        hold_more(&mut self.rest, left)
    }

    /// Answers the lines that end in this piece, as `feed` does.
    pub(crate) fn take_piece<K: Sink>(&mut self, piece: &[u8], sink: &mut K) -> Result<(), Stop>
        ensures ok { OnOk result ((tail : List ℕ) → Holds tail self.old.rest → Answers self.old (lines_of false (tail ++ piece.now)) (tail_of (tail ++ piece.now)) (K.written sink.old) (K.written sink.new) self.new) }
        ensures err { OnErr result ((tail : List ℕ) → Holds tail self.old.rest → WritesPrefix self.old.state (lines_of false (tail ++ piece.now)) (K.written sink.old) (K.written sink.new)) }
        ensures broken { IsErrOf result Stop.WriteFault → (tail : List ℕ) → Holds tail self.old.rest → BreaksIn self.old.state (lines_of false (tail ++ piece.now)) (K.written sink.old) (K.written sink.new) }
        ensures later { K.faults sink.old ≤ K.faults sink.new }
        ensures failed { IsErrOf result Stop.WriteFault → Rose (K.faults sink.old) (K.faults sink.new) }
    {
        self.state_law();
        let mut gathered = Vec::new(self.alloc);
        let mut left = piece;
        while let Some((end, after)) = split_at_lf(left) {
            self.end_line(end, &mut gathered)?;
            write_if_many(sink, &mut gathered)?;
            left = after;
        }
        self.hold(left)?;
        write_all(sink, &gathered)?;
        Ok(())
    }

    /// Answers what is held, where there is something, as the last line, as `finish` does.
    pub(crate) fn take_end<K: Sink>(&mut self, sink: &mut K) -> Result<(), Stop>
        ensures ok { OnOk result ((tail : List ℕ) → Holds tail self.old.rest → Answers self.old (lines_of true tail) [] (K.written sink.old) (K.written sink.new) self.new) }
        ensures err { OnErr result ((tail : List ℕ) → Holds tail self.old.rest → WritesPrefix self.old.state (lines_of true tail) (K.written sink.old) (K.written sink.new)) }
        ensures broken { IsErrOf result Stop.WriteFault → (tail : List ℕ) → Holds tail self.old.rest → BreaksIn self.old.state (lines_of true tail) (K.written sink.old) (K.written sink.new) }
        ensures later { K.faults sink.old ≤ K.faults sink.new }
        ensures failed { IsErrOf result Stop.WriteFault → Rose (K.faults sink.old) (K.faults sink.new) }
    {
        self.state_law();
        if self.holds_none() {
            return Ok(());
        }
        let mut gathered = Vec::new(self.alloc);
        self.end_line(&[], &mut gathered)?;
        write_all(sink, &gathered)?;
        Ok(())
    }

    /// Answers each line that ends in this piece, what is held first, and holds what follows the last LF.
    ///
    /// After an `Ok` the sink has, after what it had, the replies to all lines that `tail` followed by the piece makes whole, for any
    /// text `tail` of which the bytes held are all, or the first 1,048,578: what was cut of a line changes no reply. After an `Err`
    /// it has a prefix of them, and the replayer is gone; where the sink failed, the prefix ends before the end of a line's reply.
    pub fn feed<K: Sink>(self, piece: &[u8], sink: &mut K) -> Result<Replayer, Stop>
        ensures ok { IfOk result (λ r. (tail : List ℕ) → Holds tail self.rest → Answers self (lines_of false (tail ++ piece.now)) (tail_of (tail ++ piece.now)) (K.written sink.old) (K.written sink.new) r) }
        ensures err { OnErr result ((tail : List ℕ) → Holds tail self.rest → WritesPrefix self.state (lines_of false (tail ++ piece.now)) (K.written sink.old) (K.written sink.new)) }
        ensures broken { IsErrOf result Stop.WriteFault → (tail : List ℕ) → Holds tail self.rest → BreaksIn self.state (lines_of false (tail ++ piece.now)) (K.written sink.old) (K.written sink.new) }
        ensures later { K.faults sink.old ≤ K.faults sink.new }
        ensures failed { IsErrOf result Stop.WriteFault → Rose (K.faults sink.old) (K.faults sink.new) }
    {
        let mut replayer = self;
        match replayer.take_piece(piece, sink) {
            Ok(()) => Ok(replayer),
            Err(stop) => Err(stop),
        }
    }

    /// Answers what is held, where there is something, as the last line. Then nothing is held.
    pub fn finish<K: Sink>(self, sink: &mut K) -> Result<Replayer, Stop>
        ensures ok { IfOk result (λ r. (tail : List ℕ) → Holds tail self.rest → Answers self (lines_of true tail) [] (K.written sink.old) (K.written sink.new) r) }
        ensures err { OnErr result ((tail : List ℕ) → Holds tail self.rest → WritesPrefix self.state (lines_of true tail) (K.written sink.old) (K.written sink.new)) }
        ensures broken { IsErrOf result Stop.WriteFault → (tail : List ℕ) → Holds tail self.rest → BreaksIn self.state (lines_of true tail) (K.written sink.old) (K.written sink.new) }
        ensures later { K.faults sink.old ≤ K.faults sink.new }
        ensures failed { IsErrOf result Stop.WriteFault → Rose (K.faults sink.old) (K.faults sink.new) }
    {
        let mut replayer = self;
        match replayer.take_end(sink) {
            Ok(()) => Ok(replayer),
            Err(stop) => Err(stop),
        }
    }
}
