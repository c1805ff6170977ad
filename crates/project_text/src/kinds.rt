ghost use Rattle.std.specs.Prelude.{◌≡◌, false, true};
ghost use Rattle.project_terms.specs.Texts.{IsVerdict};
ghost use Rattle.project_terms.specs.Verdicts.{at, said, judged, title_of, title_verdict, is_none, number_of, class_of, rule_of, rect_of, error_of, next_verdict, class_verdict, rule_verdict, dirty_verdict, error_verdict};
ghost use Rattle.project_terms.specs.declared.stage.Stage.TheVariants as stage;
ghost use Rattle.project_text.specs.Reading.{left, Gives, Says, IsFeatureVerdict, cell_line_verdict};

use crate::cells::read_cell;
use crate::draft::Draft;
use crate::fault::LineFault;
use crate::fields::{is_over, is_word, split_field};
use crate::forms::{
    class_form, error_form, feature_form, number_form, rect_form, rule_form, title_form,
};
use crate::shapes::{Reading, read_shape};
use project_terms::{ProjectCause, Stage};
use std::alloc::Global;

impl Draft {
    /// The line that names the format.
    fn read_title(&mut self, rest: &[u8]) -> Result<(), LineFault>
        ensures { Says result (at stage.Title self.old (judged (title_verdict self.old) (title_of (left rest.now)))) self.new }
    {
        if !self.is_open(Stage::Title) {
            return Err(LineFault::Wrong(ProjectCause::Form));
        }
        match title_form(rest) {
            Some(typed) => {
                self.typed = typed;
                self.stage = Stage::Title;
                Ok(())
            }
            None => Err(LineFault::Wrong(ProjectCause::Form)),
        }
    }

    /// The last line.
    fn read_end(&mut self, rest: &[u8]) -> Result<(), LineFault>
        ensures { Says result (at stage.End self.old (said stage.End self.old (is_none (left rest.now)))) self.new }
    {
        if !self.is_open(Stage::End) || !is_over(rest) {
            return Err(LineFault::Wrong(ProjectCause::Form));
        }
        self.stage = Stage::End;
        Ok(())
    }

    /// The line of the next handle.
    fn read_next(&mut self, rest: &[u8]) -> Result<(), LineFault>
        requires { self.old.stage ≡ stage.Title → self.old.project.next ≡ 1 }
        ensures { Says result (at stage.Next self.old (judged (next_verdict self.old) (number_of (left rest.now)))) self.new }
    {
        if !self.is_open(Stage::Next) {
            return Err(LineFault::Wrong(ProjectCause::Form));
        }
        match number_form(rest) {
            Some(number) => self.say_next(number),
            None => Err(LineFault::Wrong(ProjectCause::Form)),
        }
    }

    /// The line of a class.
    fn read_class(&mut self, rest: &[u8]) -> Result<(), LineFault>
        ensures { Says result (at stage.Classes self.old (judged (class_verdict self.old) (class_of (left rest.now)))) self.new }
    {
        if !self.is_open(Stage::Classes) {
            return Err(LineFault::Wrong(ProjectCause::Form));
        }
        match class_form(rest) {
            Some((name, kind)) => self.say_class(name, kind),
            None => Err(LineFault::Wrong(ProjectCause::Form)),
        }
    }

    /// The line of a rule.
    fn read_rule(&mut self, rest: &[u8]) -> Result<(), LineFault>
        ensures { Says result (at stage.Rules self.old (judged (rule_verdict self.old) (rule_of self.old.typed (left rest.now)))) self.new }
    {
        if !self.is_open(Stage::Rules) {
            return Err(LineFault::Wrong(ProjectCause::Form));
        }
        match rule_form(self.typed, rest) {
            Some(form) => self.say_rule(&form),
            None => Err(LineFault::Wrong(ProjectCause::Form)),
        }
    }

    /// The line of a feature.
    fn read_feature(&mut self, alloc: Global, rest: &[u8]) -> Result<(), LineFault>
        ensures { Gives result (IsFeatureVerdict self.old (left rest.now)) self.new }
    {
        if !self.is_open(Stage::Features) {
            return Err(LineFault::Wrong(ProjectCause::Form));
        }
        let Some(form) = feature_form(self.typed, rest) else {
            return Err(LineFault::Wrong(ProjectCause::Form));
        };
        match read_shape(alloc, form.wkt)? {
            Reading::Unwritten => Err(LineFault::Wrong(ProjectCause::Form)),
            Reading::Refused => Err(LineFault::Wrong(ProjectCause::Shape)),
            Reading::Written(shape) => self.say_feature(form.handle, &form.own, shape),
        }
    }

    /// The line of a dirty rectangle.
    fn read_dirty(&mut self, rest: &[u8]) -> Result<(), LineFault>
        ensures { Says result (at stage.Dirt self.old (judged (dirty_verdict self.old) (rect_of (left rest.now)))) self.new }
    {
        if !self.is_open(Stage::Dirt) {
            return Err(LineFault::Wrong(ProjectCause::Form));
        }
        match rect_form(rest) {
            Some(form) => self.say_dirty(&form),
            None => Err(LineFault::Wrong(ProjectCause::Form)),
        }
    }

    /// The line of an error, or of an exception.
    fn read_error(&mut self, alloc: Global, marked: bool, rest: &[u8]) -> Result<(), LineFault>
        ensures { Says result (at stage.Errors self.old (judged (error_verdict marked self.old) (error_of (left rest.now)))) self.new }
    {
        if !self.is_open(Stage::Errors) {
            return Err(LineFault::Wrong(ProjectCause::Form));
        }
        match error_form(rest) {
            Some(form) => self.say_error(alloc, marked, &form),
            None => Err(LineFault::Wrong(ProjectCause::Form)),
        }
    }

    /// The line of a cell.
    fn read_cell(&mut self, alloc: Global, rest: &[u8]) -> Result<(), LineFault>
        ensures { Says result (cell_line_verdict self.old (left rest.now)) self.new }
    {
        if !self.is_cell_open() {
            return Err(LineFault::Wrong(ProjectCause::Form));
        }
        let cell = read_cell(alloc, rest)?;
        self.say_cell(cell)
    }

    /// The next line. After an `Err` the draft is not to be used.
    pub fn read_line(&mut self, alloc: Global, line: &[u8]) -> Result<(), LineFault>
        requires { self.old.stage ≡ stage.Title → self.old.project.next ≡ 1 }
        ensures { Gives result (IsVerdict self.old line.now) self.new }
    {
        let (word, rest) = split_field(line);
        if is_word(word, b"topology") {
            return self.read_title(rest);
        }
        if is_word(word, b"next") {
            return self.read_next(rest);
        }
        if is_word(word, b"class") {
            return self.read_class(rest);
        }
        if is_word(word, b"rule") {
            return self.read_rule(rest);
        }
        if is_word(word, b"feature") {
            return self.read_feature(alloc, rest);
        }
        if is_word(word, b"dirty") {
            return self.read_dirty(rest);
        }
        if is_word(word, b"error") {
            return self.read_error(alloc, false, rest);
        }
        if is_word(word, b"exception") {
            return self.read_error(alloc, true, rest);
        }
        if is_word(word, b"cell") {
            return self.read_cell(alloc, rest);
        }
        if is_word(word, b"end") {
            return self.read_end(rest);
        }
        Err(LineFault::Wrong(ProjectCause::Form))
    }
}
