// A world: an index and its names, from which commands are answered.
ghost use Rattle.std.specs.Prelude.{◌≡◌, IfOk};
ghost use Rattle.path_text.specs.Lists.{made_of};
ghost use Rattle.path_resolution.specs.Questions.{answered};
ghost use Rattle.entries.specs.Visibilities.{asked};
ghost use Rattle.item_scope.specs.Deliveries.{Takes};
ghost use Rattle.world_commands.specs.Answers.{told, delivery_answer, taken_of, ask_answer, place_answer, place_asked, sight_answer, read_answer, ask_read, PathRead, AnswerTo, After};

use crate::answer::Answer;
use crate::command::Command;
use entries::visibility::Visibility;
use hir_def::fault::{Failure, Fault, IndexFault, TextFault};
use hir_def::{ModuleId, Name};
use item_scope::delivery::Delivery;
use item_scope::index::{Index, Recipient, deliver};
use path_resolution::path_resolution::resolve_path_fp_with_macro;
use path_resolution::question::Question;
use path_text::mod_path::ModPath;
use path_text::name_list::NameList;
use path_text::read::read_path;
use std::alloc::{AllocError, Global};

/// An index, and the bytes of a name list with the list that they make for the index, or why they make none.
#[derive(Drop)]
pub struct World<'n, I: Recipient + Drop> {
    index: I,
    list: &'n [u8],
    names: Result<NameList<'n>, TextFault>,
    ghost made: { names ≡ made_of list.now (I.view index).fixed.names },
}

// The list of that many names that the bytes make, or why they make none.
fn names_of(
    alloc: Global,
    list: &[u8],
    names: u32,
) -> Result<Result<NameList, TextFault>, AllocError>
    ensures { IfOk result (λ made. made ≡ made_of list.now names) }
{
    match NameList::new(alloc, list, names) {
        Ok(list) => Ok(Ok(list)),
        Err(Failure::Refused(fault)) => Ok(Err(fault)),
        Err(Failure::Memory(e)) => Err(e),
    }
}

// The answer, or the refusal as one.
fn told(answer: Result<Answer, Fault>) -> Answer
    ensures { result ≡ told answer }
{
    match answer {
        Ok(answer) => answer,
        Err(fault) => Answer::Refused(fault),
    }
}

#[tactic(auto, using(crate::proofs::Fixed::names))]
fn delivered<I: Recipient>(index: &mut I, delivery: Delivery) -> Result<Answer, Fault>
    ensures answers { told result ≡ delivery_answer (taken_of (I.view index.old) (I.left index.old) delivery) }
    ensures after { let v = I.view index.old in let left = I.left index.old in
        Takes v left delivery (taken_of v left delivery) (I.view index.new) (I.left index.new) }
    ensures delivers { I.delivers index.old delivery (taken_of (I.view index.old) (I.left index.old) delivery) index.new }
    ensures names { (I.view index.new).fixed.names ≡ (I.view index.old).fixed.names }
{
    let changed = deliver(index, delivery)?;
    Ok(Answer::Delivered(changed))
}

fn ask<I: Index>(index: &I, question: Question, path: &ModPath) -> Result<Answer, Fault>
    ensures { told result ≡ ask_answer (answered (I.view index.now) question path.now.kind path.now.names.items) }
{
    let answer = resolve_path_fp_with_macro(index, question, path)?;
    Ok(Answer::Asked(answer))
}

fn place<I: Index>(index: &I, at: ModuleId, name: Name) -> Result<Answer, Fault>
    ensures { told result ≡ place_answer (place_asked (I.view index.now) at name) }
{
    if at.0 >= index.modules() {
        return Err(Fault::from(IndexFault::NoModule));
    }
    if name.0 >= index.names() {
        return Err(Fault::from(IndexFault::NoName));
    }
    Ok(Answer::Place(index.get(at, name)))
}

fn sight<I: Index>(index: &I, vis: Visibility, from: ModuleId) -> Result<Answer, Fault>
    ensures { told result ≡ sight_answer (asked (I.view index.now).fixed.tree from vis) }
{
    let seen = vis.is_visible_from(index, from)?;
    Ok(Answer::Sight(seen))
}

// The path that a text stands for, or why it stands for none, which may be that there is no list.
fn path_of(
    alloc: Global,
    names: &Result<NameList, TextFault>,
    text: &[u8],
) -> Result<Result<ModPath, TextFault>, AllocError>
    ensures { PathRead names.now text.now result }
{
    let list = match names {
        Ok(list) => list,
        Err(fault) => return Ok(Err(*fault)),
    };
    match read_path(alloc, list, text) {
        Ok(path) => Ok(Ok(path)),
        Err(Failure::Refused(fault)) => Ok(Err(fault)),
        Err(Failure::Memory(e)) => Err(e),
    }
}

fn read(path: Result<ModPath, TextFault>) -> Result<Answer, Fault>
    ensures { told result ≡ read_answer path }
{
    let path = path?;
    Ok(Answer::Read(path))
}

fn ask_read<I: Index>(
    index: &I,
    question: Question,
    path: Result<ModPath, TextFault>,
) -> Result<Answer, Fault>
    ensures { told result ≡ ask_read (I.view index.now) question path }
{
    let path = path?;
    ask(index, question, &path)
}

impl<'n, I: Recipient + Drop> World<'n, I> {
    /// A world of an index and the bytes of its name list, which may make none for it. Fails where memory is wanting.
    pub fn new(alloc: Global, index: I, list: &'n [u8]) -> Result<Self, AllocError>
        ensures index { IfOk result (λ w. w.index ≡ index) }
        ensures list { IfOk result (λ w. w.list.now ≡ list.now) }
    {
        let names = names_of(alloc, list, index.names())?;
        Ok(World { index, list, names })
    }

    /// The index.
    pub fn index(&self) -> &I
        ensures { result.now ≡ self.now.index }
    {
        &self.index
    }

    /// The answer to a command. Text is read by a list of exactly the index's names, and refused where the bytes make
    /// none. A delivery that is taken changes the index, and nothing else does.
    #[tactic(auto, using(crate::proofs::Texts::no_memory, crate::proofs::Texts::path_read, crate::proofs::Texts::path_asked))]
    pub fn answer(&mut self, alloc: Global, command: &Command) -> Result<Answer, AllocError>
        ensures answers { let i = self.old.index in
            AnswerTo (I.view i) (I.left i) self.old.list.now command.now result }
        ensures after { After I.view I.left I.delivers self.old.index command.now self.new.index }
        ensures list { self.new.list.now ≡ self.old.list.now }
    {
        let index = &self.index;
        let answer = match command {
            Command::Deliver(delivery) => delivered(&mut self.index, *delivery),
            Command::Ask(question, path) => ask(index, *question, path),
            Command::AskText(question, text) => {
                let path = path_of(alloc, &self.names, text.as_slice())?;
                ask_read(index, *question, path)
            }
            Command::Place(at, name) => place(index, *at, *name),
            Command::Sight(vis, from) => sight(index, *vis, *from),
            Command::Read(text) => read(path_of(alloc, &self.names, text.as_slice())?),
            Command::Left => Ok(Answer::Left(index.left())),
        };
        Ok(told(answer))
    }
}
