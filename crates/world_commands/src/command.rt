// The commands of a world, as a line says them.
ghost use Rattle.std.specs.Prelude.{◌≡◌, ◌∷◌, IfOk, codes, map};
ghost use Rattle.world_commands.specs.Words.{ReadAs, parts_of};
ghost use Rattle.world_commands.specs.Commands.{IsCommand};

use crate::entry_words::{delivery, place};
use crate::fields::{bytes, parts, visibility};
use crate::question_words::{path, question};
use entries::visibility::Visibility;
use hir_def::{ModuleId, Name};
use item_scope::delivery::Delivery;
use path_resolution::question::Question;
use path_text::mod_path::ModPath;
use source_text::number::number;
use std::alloc::{AllocError, Global};

/// What is told to a world, or asked of it.
#[derive(Debug, Drop)]
pub enum Command {
    /// What a name is to stand for.
    Deliver(Delivery),
    /// What a path stands for where it is asked.
    Ask(Question, ModPath),
    /// The same of a path by its text.
    AskText(Question, Vec<u8>),
    /// Which entries hold the name's places.
    Place(ModuleId, Name),
    /// Whether the module may see what has that visibility.
    Sight(Visibility, ModuleId),
    /// Which path a text stands for.
    Read(Vec<u8>),
    /// How many rows are free.
    Left,
}

fn deliver(fields: &[&str]) -> Option<Command>
    ensures { ReadAs IsCommand (codes "deliver" ∷ map (λ f. f.now) fields.now) result }
{
    delivery(fields).map(Command::Deliver)
}

fn ask(alloc: Global, fields: &[&str]) -> Result<Option<Command>, AllocError>
    ensures { IfOk result (ReadAs IsCommand (codes "ask" ∷ map (λ f. f.now) fields.now)) }
{
    let [asks, at, begins, dotted, shadows, expects] = fields else {
        return Ok(None);
    };
    let Some(question) = question(asks, at, shadows, expects) else {
        return Ok(None);
    };
    match path(alloc, begins, dotted)? {
        Some(path) => Ok(Some(Command::Ask(question, path))),
        None => Ok(None),
    }
}

fn ask_text(alloc: Global, fields: &[&str]) -> Result<Option<Command>, AllocError>
    ensures { IfOk result (ReadAs IsCommand (codes "asktext" ∷ map (λ f. f.now) fields.now)) }
{
    let [asks, at, text, shadows, expects] = fields else {
        return Ok(None);
    };
    let Some(question) = question(asks, at, shadows, expects) else {
        return Ok(None);
    };
    Ok(bytes(alloc, text)?.map(|text| Command::AskText(question, text)))
}

fn at_place(fields: &[&str]) -> Option<Command>
    ensures { ReadAs IsCommand (codes "place" ∷ map (λ f. f.now) fields.now) result }
{
    let [module, name] = fields else {
        return None;
    };
    let (module, name) = place(module, name)?;
    Some(Command::Place(module, name))
}

fn sight(fields: &[&str]) -> Option<Command>
    ensures { ReadAs IsCommand (codes "sight" ∷ map (λ f. f.now) fields.now) result }
{
    let [vis, module] = fields else {
        return None;
    };
    Some(Command::Sight(visibility(vis)?, ModuleId(number(module)?)))
}

fn read(alloc: Global, fields: &[&str]) -> Result<Option<Command>, AllocError>
    ensures { IfOk result (ReadAs IsCommand (codes "read" ∷ map (λ f. f.now) fields.now)) }
{
    let [text] = fields else {
        return Ok(None);
    };
    Ok(bytes(alloc, text)?.map(Command::Read))
}

fn left(fields: &[&str]) -> Option<Command>
    ensures { ReadAs IsCommand (codes "left" ∷ map (λ f. f.now) fields.now) result }
{
    match fields {
        [] => Some(Command::Left),
        _ => None,
    }
}

#[tactic(auto, using(crate::proofs::Commands::no_verb))]
impl Command {
    /// The command that a line says, if it says one: a verb and its words, with one blank between them. Fails where memory is wanting.
    pub fn parse(alloc: Global, line: &str) -> Result<Option<Command>, AllocError>
        ensures { IfOk result (ReadAs IsCommand (parts_of 32 line.now)) }
    {
        let words = parts(alloc, line, ' ')?;
        let [verb, fields @ ..] = words.as_slice() else {
            return Ok(None);
        };
        match *verb {
            "deliver" => Ok(deliver(fields)),
            "ask" => ask(alloc, fields),
            "asktext" => ask_text(alloc, fields),
            "place" => Ok(at_place(fields)),
            "sight" => Ok(sight(fields)),
            "read" => read(alloc, fields),
            "left" => Ok(left(fields)),
            _ => Ok(None),
        }
    }
}
