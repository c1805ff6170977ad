ghost use Rattle.std.specs.Prelude.{◌≡◌, ◌≤◌, ◌<◌, ◌-◌, ◌==◌, ◌&&◌, ◌||◌, not, Some, Ok, true, false, [], is_some, IfSome, unwrap_or, MatchOption};
ghost use Rattle.rule_words.specs.Table.{dest_of};
ghost use Rattle.topology_terms.specs.Causes.{fits_dest, is_fit, is_kind, is_row, is_there};
ghost use Rattle.std.specs.Option.{option_map};
ghost use Rattle.topology_terms.specs.Extents.{is_whole};
ghost use Rattle.topology_terms.specs.Feature as feature_terms;
ghost use Rattle.topology_terms.specs.Feature.{IsAscending, feature_of, no_side};
ghost use Rattle.topology_terms.specs.Lookups.{kind_of_class};
ghost use Rattle.topology_terms.specs.Project.{rule_at};
ghost use Rattle.topology_terms.specs.Project as project_terms;
ghost use Rattle.project_terms.specs.Lines.{natural};
ghost use Rattle.project_terms.specs.Drafts.{is_rectangle, last_in, is_last_key, is_before, takes_cell, with_cell};
ghost use Rattle.project_terms.specs.Verdicts.{class_verdict, row_of, bound_in, dest_bound, side_in, dest_in, subtype_in, with_rule, rule_verdict, dirty_verdict, with_feature, feature_numbered, with_error, error_verdict, next_verdict};
ghost use Rattle.project_text.specs.Reading.{Says, rule_said, rect_said, error_said, is_in_force};

use crate::draft::Draft;
use crate::fault::LineFault;
use crate::forms::{ErrorForm, RectForm, RuleForm, SideForm};
use crate::numbers::natural;
use convex_cell::{Cell, Cells};
use error_store::{Entry, Key};
use feature_store::{Features, Store};
use grid_plane::{Name, Rect};
use project_terms::{ProjectCause, Stage};
use rule_core::{InForce, RuleRow, Side};
use shape::{Feature, Kind, Shape};
use std::alloc::Global;
use topology_terms::Extent;

fn is_row(a: &RuleRow, b: &RuleRow) -> bool
    ensures { result ≡ is_row a.now b.now }
{
    a.kind == b.kind && a.origin.same(&b.origin) && a.dest_side().same(&b.dest_side())
}

fn is_there(rules: &[InForce], row: &RuleRow) -> bool
    ensures { result ≡ is_there rules.now row.now }
{
    rules.iter().any(|rule| is_row(&rule.row, row))
}

// Whether a rule of this number is in force.
#[tactic(auto, unfolding(topology_terms::specs::Project::rule_at))]
fn has_rule(rules: &[InForce], number: u16) -> bool
    ensures { result ≡ is_some (rule_at rules.now number) }
{
    for rule in rules {
        if rule.number == number {
            return true;
        }
    }
    false
}

// Whether the second side serves the rule; or, where the rule takes none, whether none is given.
fn does_dest_fit(store: &Store, row: &RuleRow) -> bool
    ensures { result ≡ fits_dest store.now.classes row.now (dest_of row.now.kind) }
{
    match row.kind.dest() {
        None => !row.has_dest(),
        Some(kind) => {
            let side = row.dest_side();
            store.class_kind(side.class) == Some(kind) && side.is_apart(&row.origin)
        }
    }
}

fn do_classes_fit(store: &Store, row: &RuleRow) -> bool
    ensures { result ≡ is_fit store.now.classes row.now }
{
    store.class_kind(row.origin.class) == Some(row.kind.origin()) && does_dest_fit(store, row)
}

// Whether the shapes of the class of this number are of the kind.
fn is_of_kind(store: &Store, class: u16, kind: Kind) -> bool
    ensures { result ≡ is_kind (kind_of_class store.now.classes class) kind }
{
    store.class_kind(class) == Some(kind)
}

// The law that features ascend by their handles.
fn features_law(store: &Store)
    ensures { IsAscending store.now.features }
{
    let _ = store.features();
}

// The subtype of this number, or none where there is no number; nothing where it is beyond its limits.
fn bound_in(number: Option<i64>) -> Option<Option<u8>>
    ensures { result ≡ bound_in number }
{
    match number {
        None => Some(None),
        Some(number) => {
            let subtype = natural(0, 255, number)? as u8;
            Some(Some(subtype))
        }
    }
}

// The same of a second side, where there is one.
fn dest_bound(form: &Option<SideForm>) -> Option<Option<u8>>
    ensures { result ≡ dest_bound form.now }
{
    match form {
        None => Some(None),
        Some(side) => bound_in(side.subtype),
    }
}

// The subtype of a feature; nothing where its number is beyond its limits.
fn subtype_in(number: Option<i64>) -> Option<u8>
    ensures { result ≡ subtype_in number }
{
    match number {
        None => Some(0),
        Some(number) => {
            let subtype = natural(0, 255, number)? as u8;
            Some(subtype)
        }
    }
}

// The side of the class, where it is there.
fn side_in(store: &Store, form: &SideForm, subtype: Option<u8>) -> Option<Side>
    ensures { result ≡ side_in store.now.classes form.now subtype }
{
    let class = store.class_by_name(&form.name)?;
    Some(Side { class, subtype })
}

// The second side of a rule, or none where it names none; nothing where it names a class that is not there.
#[tactic(auto, using(crate::proofs::Named::side_numbered))]
fn dest_in(store: &Store, form: &Option<SideForm>, subtype: Option<u8>) -> Option<Option<Side>>
    ensures said { option_map (λ d. unwrap_or d no_side) result ≡ dest_in store.now.classes form.now subtype }
    ensures numbered { IfSome result (λ d. IfSome d (λ s. 0 < s.class)) }
{
    match form {
        None => Some(None),
        Some(form) => {
            let side = side_in(store, form, subtype)?;
            Some(Some(side))
        }
    }
}

// The row of sides whose classes are there, and which fit the rule.
fn row_of(store: &Store, form: &RuleForm, origin: Option<u8>, dest: Option<u8>) -> Option<RuleRow>
    ensures { result ≡ row_of store.now.classes (rule_said form.now) origin dest }
{
    let origin = side_in(store, &form.origin, origin)?;
    let dest = dest_in(store, &form.dest, dest)?;
    let row = RuleRow::new(form.kind, origin, dest);
    if do_classes_fit(store, &row) {
        Some(row)
    } else {
        None
    }
}

fn last_number(rules: &[InForce]) -> u16
    ensures { result ≡ last_in (λ (q : project_terms.InForce). q.number) rules.now }
{
    match rules.last() {
        Some(rule) => rule.number,
        None => 0,
    }
}

fn last_handle(features: &Features<'_>) -> u32
    ensures { result ≡ last_in (λ (f : feature_terms.Feature). f.handle) features.now }
{
    match features.last() {
        Some(feature) => feature.handle(),
        None => 0,
    }
}

fn is_before(a: &Key, b: &Key) -> bool
    ensures { result ≡ is_before (a.now.rule, a.now.subject, a.now.other) (b.now.rule, b.now.subject, b.now.other) }
{
    a.rule < b.rule
        || (a.rule == b.rule
            && (a.subject < b.subject
                || (a.subject == b.subject && a.partner_number() < b.partner_number())))
}

// Whether the key stands behind that of the last error.
fn is_last_key(entries: &[Entry], key: &Key) -> bool
    ensures { result ≡ is_last_key entries.now (key.now.rule, key.now.subject, key.now.other) }
{
    match entries.last() {
        Some(entry) => is_before(&entry.key(), key),
        None => true,
    }
}

// The rectangle of four numbers, where they are within the reach and in order.
fn rect_of(form: &RectForm) -> Option<Rect>
    ensures { MatchOption result (is_rectangle (rect_said form.now) ≡ false) (λ r. (r ≡ rect_said form.now) × (is_rectangle r ≡ true)) }
{
    let numbers = *form;
    match Rect::of(numbers.x0, numbers.y0, numbers.x1, numbers.y1) {
        Ok(r) => Some(r),
        Err(_) => None,
    }
}

impl Draft {
    /// The next handle.
    pub fn say_next(&mut self, number: i64) -> Result<(), LineFault>
        requires { self.old.project.next ≡ 1 }
        ensures { Says result (next_verdict self.old number) self.new }
    {
        let Some(next) = natural(1, u32::MAX, number) else {
            return Err(LineFault::Wrong(ProjectCause::Range));
        };
        self.store.set_next(next);
        self.stage = Stage::Next;
        Ok(())
    }

    /// A class more.
    pub fn say_class(&mut self, name: Name, kind: Kind) -> Result<(), LineFault>
        ensures { Says result (class_verdict self.old (record { name = name; kind = kind })) self.new }
    {
        if self.store.class_count() == 64 {
            return Err(LineFault::Wrong(ProjectCause::Range));
        }
        if self.store.class_by_name(&name).is_some() {
            return Err(LineFault::Wrong(ProjectCause::Order));
        }
        match self.store.add_class(name, kind) {
            Ok(_) => {
                self.stage = Stage::Classes;
                Ok(())
            }
            Err(_) => Err(LineFault::NoMemory),
        }
    }

    // A rule more, of a row that fits.
    fn put_rule(&mut self, rule: InForce) -> Result<(), LineFault>
        ensures { Says result (with_rule self.old rule) self.new }
    {
        if last_number(&self.rules) >= rule.number || is_there(&self.rules, &rule.row) {
            return Err(LineFault::Wrong(ProjectCause::Order));
        }
        self.rules.push(rule)?;
        self.stage = Stage::Rules;
        Ok(())
    }

    /// A rule more.
    pub fn say_rule(&mut self, form: &RuleForm) -> Result<(), LineFault>
        ensures { Says result (rule_verdict self.old (rule_said form.now)) self.new }
    {
        let Some(number) = natural(1, 256, form.number) else {
            return Err(LineFault::Wrong(ProjectCause::Range));
        };
        let Some(origin) = bound_in(form.origin.subtype) else {
            return Err(LineFault::Wrong(ProjectCause::Range));
        };
        let Some(dest) = dest_bound(&form.dest) else {
            return Err(LineFault::Wrong(ProjectCause::Range));
        };
        let Some(row) = row_of(&self.store, form, origin, dest) else {
            return Err(LineFault::Wrong(ProjectCause::Unknown));
        };
        self.put_rule(InForce {
            number: number as u16,
            row,
        })
    }

    // A feature more, of a class of its kind.
    fn put_feature(
        &mut self,
        handle: u32,
        class: u16,
        subtype: u8,
        shape: Shape,
    ) -> Result<(), LineFault>
        requires from_1 { 1 ≤ handle }
        requires given { handle < self.old.project.next }
        requires kind { is_kind (kind_of_class self.old.project.classes class) shape.kind ≡ true }
        ensures { Says result (with_feature self.old (feature_of handle class subtype shape)) self.new }
    {
        if last_handle(&self.store.features()) >= handle {
            return Err(LineFault::Wrong(ProjectCause::Order));
        }
        let mut kept = Some(Feature::typed(handle, class, subtype, shape));
        self.store.swap(handle, &mut kept)?;
        features_law(&self.store);
        self.stage = Stage::Features;
        Ok(())
    }

    /// A feature more, its shape read.
    pub fn say_feature(
        &mut self,
        number: i64,
        own: &SideForm,
        shape: Shape,
    ) -> Result<(), LineFault>
        ensures { Says result (feature_numbered self.old own.now shape (natural 1 (self.old.project.next - 1) number)) self.new }
    {
        let Some(handle) = natural(1, self.store.next_handle() - 1, number) else {
            return Err(LineFault::Wrong(ProjectCause::Range));
        };
        let Some(subtype) = subtype_in(own.subtype) else {
            return Err(LineFault::Wrong(ProjectCause::Range));
        };
        let Some(class) = self.store.class_by_name(&own.name) else {
            return Err(LineFault::Wrong(ProjectCause::Unknown));
        };
        if !is_of_kind(&self.store, class, shape.kind()) {
            return Err(LineFault::Wrong(ProjectCause::Unknown));
        }
        self.put_feature(handle, class, subtype, shape)
    }

    /// A dirty rectangle more.
    pub fn say_dirty(&mut self, form: &RectForm) -> Result<(), LineFault>
        ensures { Says result (dirty_verdict self.old (rect_said form.now)) self.new }
    {
        let Some(r) = rect_of(form) else {
            return Err(LineFault::Wrong(ProjectCause::Range));
        };
        if self.dirt.is_nested(&r) {
            return Err(LineFault::Wrong(ProjectCause::Order));
        }
        self.dirt.add(r)?;
        self.stage = Stage::Dirt;
        Ok(())
    }

    // An error more, of a rule in force.
    fn put_error(&mut self, entry: Entry) -> Result<(), LineFault>
        ensures { Says result (with_error self.old entry) self.new }
    {
        if !is_last_key(&self.entries, &entry.key()) {
            return Err(LineFault::Wrong(ProjectCause::Order));
        }
        self.entries.push(entry)?;
        self.stage = Stage::Errors;
        Ok(())
    }

    // The frame of an error, where its handles, its frame and its partner are within their limits.
    fn frame_of(&self, form: &ErrorForm, other: u32) -> Option<Rect>
        ensures { MatchOption result ((not (is_rectangle (rect_said form.now.frame)) || (is_whole form.now.extent && not (other == 0))) ≡ true)
            (λ r. (r ≡ rect_said form.now.frame) × ((not (is_rectangle (rect_said form.now.frame)) || (is_whole form.now.extent && not (other == 0))) ≡ false)) }
    {
        let frame = rect_of(&form.frame)?;
        match form.extent {
            Extent::Whole if other != 0 => None,
            _ => Some(frame),
        }
    }

    // The number of a rule in force.
    fn rule_in_force(&self, number: i64) -> Option<u16>
        ensures { MatchOption result (is_in_force self.now.project.rules (natural 1 256 number) ≡ false)
            (λ r. (natural 1 256 number ≡ Some r) × (is_some (rule_at self.now.project.rules r) ≡ true)) }
    {
        let rule = natural(1, 256, number)? as u16;
        if has_rule(&self.rules, rule) {
            Some(rule)
        } else {
            None
        }
    }

    /// An error more, without its cells.
    pub fn say_error(
        &mut self,
        alloc: Global,
        marked: bool,
        form: &ErrorForm,
    ) -> Result<(), LineFault>
        ensures { Says result (error_verdict marked self.old (error_said form.now)) self.new }
    {
        let last = self.store.next_handle() - 1;
        let Some(subject) = natural(1, last, form.subject) else {
            return Err(LineFault::Wrong(ProjectCause::Range));
        };
        let Some(other) = natural(0, last, form.other) else {
            return Err(LineFault::Wrong(ProjectCause::Range));
        };
        let Some(frame) = self.frame_of(form, other) else {
            return Err(LineFault::Wrong(ProjectCause::Range));
        };
        let Some(rule) = self.rule_in_force(form.rule) else {
            return Err(LineFault::Wrong(ProjectCause::Unknown));
        };
        let key = Key::of_numbers(rule, subject, other);
        let cells = Cells::new(alloc);
        let entry = Entry::new(alloc, key, form.extent, marked, frame, cells)?;
        self.put_error(entry)
    }

    /// A cell more of the last error.
    pub fn say_cell(&mut self, cell: Cell) -> Result<(), LineFault>
        requires { takes_cell self.old.project.entries ≡ true }
        ensures { Says result (Ok (record self.old { project = record self.old.project { entries = with_cell self.old.project.entries cell } })) self.new }
    {
        let last = self.entries.len() - 1;
        self.entries[last].push_cell(cell)?;
        Ok(())
    }
}
