// What the statements of a firmware file declare: the tables of an index, the list of its items, its deliveries, its paths and its models.
use crate::definitions::Definitions;
use crate::models::Model;
use crate::tables::IndexRows;
use entries::visibility::Visibility;
use item_scope::delivery::Delivery;
use nameres::tree_rows::{BlockRow, CrateRow, ModuleRow};
use path_resolution::question::Question;
use path_text::name_list::NameList;
use source_text::words::Word;

/// An item as its statement declares it.
#[derive(Clone, Copy)]
pub struct Declared<'a> {
    pub name: &'a str,
    /// The full name of the module that the item stands in.
    pub module: &'a str,
    pub vis: Visibility,
}

/// A delivery, and the statement that makes it.
#[derive(Clone, Copy)]
pub struct DeliveryStatement<'a> {
    pub delivery: Delivery,
    pub name: &'a str,
    /// The full name of the receiving module.
    pub module: &'a str,
    /// Lines count from 1.
    pub line: usize,
}

/// What the statements of a file declare.
#[derive(Drop)]
pub struct Firmware<'a> {
    /// The modules' full names, by their numbers.
    pub names: Vec<&'a str>,
    pub modules: Vec<ModuleRow>,
    pub blocks: Vec<BlockRow>,
    pub crates: Vec<CrateRow>,
    pub items: Vec<Declared<'a>>,
    pub definitions: Definitions<'a>,
    pub deliveries: Vec<DeliveryStatement<'a>>,
    pub tables: IndexRows<'a>,
    pub paths: Vec<Word<'a>>,
    /// Who asks each path, if anyone does.
    pub questions: Vec<Option<Question>>,
    /// The names that the file declares, after the built-in ones.
    pub list: NameList<'a>,
    /// The card models, in the order of their statements.
    pub models: Vec<Model<'a>>,
}
