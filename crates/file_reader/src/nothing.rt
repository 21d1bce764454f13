// A file that declares nothing yet.
ghost use Rattle.std.specs.Prelude.{◌≡◌, IfOk};
ghost use Rattle.file_reader.specs.Definitions.{counted};
ghost use Rattle.file_reader.specs.Nothing.{no_rows, no_statements, nothing_told};
ghost use Rattle.file_reader.specs.Told.{Declarations, ModelNumbers, Modules, table, told};

use firmware::definitions::Definitions;
use firmware::file::Firmware;
use firmware::tables::{IndexRows, RowsTold};
use path_text::name_list::NameList;
use std::alloc::{AllocError, Global};

fn no_definitions<'a>(alloc: Global) -> Definitions<'a>
    ensures { counted result ≡ no_statements }
{
    Definitions {
        modules: Vec::new(alloc),
        enums: Vec::new(alloc),
        macros: Vec::new(alloc),
        others: Vec::new(alloc),
        imports: Vec::new(alloc),
        globs: Vec::new(alloc),
        extern_crates: Vec::new(alloc),
        of_a_kind: Vec::new(alloc),
    }
}

fn no_rows<'a, K: Copy, V: Copy>(alloc: Global) -> RowsTold<'a, K, V>
    ensures { table result ≡ no_rows }
{
    RowsTold {
        rows: Vec::new(alloc),
        words: Vec::new(alloc),
    }
}

/// The built-in names stand in its list already.
pub(crate) fn nothing<'a>(alloc: Global) -> Result<Firmware<'a>, AllocError>
    ensures { IfOk result (λ f. (above : Modules) (declared : Declarations) (numbers : ModelNumbers) →
        told f above declared numbers ≡ nothing_told above declared numbers) }
{
    Ok(Firmware {
        names: Vec::new(alloc),
        modules: Vec::new(alloc),
        blocks: Vec::new(alloc),
        crates: Vec::new(alloc),
        items: Vec::new(alloc),
        definitions: no_definitions(alloc),
        deliveries: Vec::new(alloc),
        tables: IndexRows {
            extern_prelude: no_rows(alloc),
            macro_use: no_rows(alloc),
            preludes: no_rows(alloc),
            legacy: no_rows(alloc),
            variants: no_rows(alloc),
            styles: Vec::new(alloc),
        },
        paths: Vec::new(alloc),
        questions: Vec::new(alloc),
        list: NameList::built_in(alloc)?,
        models: Vec::new(alloc),
    })
}
