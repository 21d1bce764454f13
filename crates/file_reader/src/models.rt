// What the statements of models add to a file: each begins a part of it.
ghost use Rattle.std.specs.Prelude.{◌≡◌, OnOk, vec_items};
ghost use Rattle.std.specs.Result.{result_ok};
ghost use Rattle.file_reader.specs.Models.{part_of, pile_over};
ghost use Rattle.file_reader.specs.Refusals.{NoOutcome, OnRefused, ToldAt};
ghost use Rattle.file_reader.specs.Adding.{AddsModel};
ghost use Rattle.file_reader.specs.Told.{told_by};
ghost use Rattle.statements.specs.Lines.{ToldIn, WordStandsIn};

use crate::reader::Reader;
use firmware::models::Model;
use firmware::pile::{Part, Pile};
use hir_def::fault::Failure;
use source_text::words::Word;
use statements::names::text_of;
use troubles::complaint::Complaint;
use troubles::trouble::Trouble;

impl<'a> Reader<'a> {
    // The part to which the next statement belongs.
    pub(crate) fn part(&self) -> Part
        ensures { result ≡ part_of (vec_items self.now.firmware.models) }
    {
        match self.firmware.models.last() {
            Some(model) => Part::Model(model.pile.top()),
            None => Part::Base,
        }
    }

    // The pile of a model over the one of that name.
    fn pile_over(&self, word: Word<'a>, model: usize) -> Result<Pile, Complaint>
        ensures pile { result_ok result
            ≡ pile_over self.now.model_numbers (vec_items self.now.firmware.models) word.entry.text.now model }
        ensures line { ToldIn word.entry.line result }
    {
        let below = match self.model_numbers.get(word.text) {
            Some(number) => self.firmware.models.get(*number),
            None => None,
        };
        let Some(below) = below else {
            return Err(Complaint::at(
                word,
                "no model of this name is declared above",
                "the name of a model declared above",
            ));
        };
        below.pile.with_top(model).ok_or(Complaint::at(
            word,
            "a model over this one is the fourth of its pile",
            "a model that stands over the tree, or over one that does: a pile has at most three",
        ))
    }

    /// A model begins a part of the file.
    pub(crate) fn add_model(
        &mut self,
        word: Word<'a>,
        below: Option<Word<'a>>,
    ) -> Result<(), Failure<Trouble>>
        ensures added { OnOk result (AddsModel (told_by self.old) word.entry below.entry (told_by self.new)) }
        ensures refused { OnRefused result (NoOutcome (AddsModel (told_by self.old) word.entry below.entry)) }
        ensures line { WordStandsIn word.entry.line below.entry → ToldAt word.entry.line result }
    {
        if self.model_numbers.contains_key(word.text) {
            return Err(Failure::from(Complaint::at(
                word,
                "a model of this name is declared above",
                "a name of its own",
            )));
        }
        let number = self.firmware.models.len();
        let pile = match below {
            Some(below) => self.pile_over(below, number)?,
            None => Pile::One(number),
        };
        let began = self.firmware.reached();
        self.firmware.models.push(Model {
            name: text_of(word)?,
            line: word.line,
            pile,
            began,
        })?;
        self.model_numbers.insert(word.text, number)?;
        Ok(())
    }
}

/// What cannot stand below a model, told at the first word of the statement.
pub(crate) fn below_a_model(verb: Word) -> Complaint
    ensures { result.line ≡ verb.entry.line }
{
    Complaint::at(
        verb,
        "this cannot stand below a model",
        "an item of a kind, an import, a path or a model; what is told of the tree stands above the first model",
    )
}
