// Modules and visibilities as they are written in a file.
ghost use Rattle.std.specs.Prelude.{Some};
ghost use Rattle.wording.specs.Shown.{held, module_text, visibility_text, each_module, modules_text};

use entries::visibility::{Visibility, VisibilityExplicitness};
use hir_def::ModuleId;
use std::fmt;

/// A module by its full name, or as `#` and its number where it has none.
#[derive(Clone, Copy)]
pub struct ModuleText<'a> {
    /// The full names of the modules, by their numbers.
    pub names: &'a [&'a str],
    pub module: ModuleId,
}

#[derive(Clone, Copy)]
pub struct VisibilityText<'a> {
    pub names: &'a [&'a str],
    pub vis: Visibility,
}

// Modules, each with that text before it.
#[derive(Clone, Copy)]
struct EachModule<'a> {
    names: &'a [&'a str],
    modules: &'a [ModuleId],
    before: &'a str,
}

/// Modules with that text between them.
#[derive(Clone, Copy)]
pub struct ModulesText<'a> {
    pub names: &'a [&'a str],
    pub modules: &'a [ModuleId],
    pub between: &'a str,
}

impl<'a> fmt::Display for ModuleText<'a> {
    ghost output = { λ m. Some (module_text (held m.names.now) m.module) };

    fn fmt<W: fmt::Write>(&self, f: &mut fmt::Formatter<W>) -> fmt::Result {
        match self.names.get(self.module.0 as usize) {
            Some(name) => f.write_str(*name),
            None => {
                let number = self.module.0;
                write!(f, "#{number}")
            }
        }
    }
}

impl<'a> fmt::Display for VisibilityText<'a> {
    ghost output = { λ v. Some (visibility_text (held v.names.now) v.vis) };

    fn fmt<W: fmt::Write>(&self, f: &mut fmt::Formatter<W>) -> fmt::Result {
        match self.vis {
            Visibility::Public => f.write_str("pub"),
            Visibility::PubCrate(_) => f.write_str("pub(crate)"),
            Visibility::Module(_, VisibilityExplicitness::Implicit) => f.write_str("private"),
            Visibility::Module(module, VisibilityExplicitness::Explicit) => {
                let names = self.names;
                let module = ModuleText { names, module };
                write!(f, "pub(in {module})")
            }
        }
    }
}

#[tactic(auto, using(crate::proofs::Modules::module_more, crate::proofs::Modules::module_all))]
impl<'a> fmt::Display for EachModule<'a> {
    ghost output = { λ e. Some (each_module (held e.names.now) e.before.now e.modules.now) };

    fn fmt<W: fmt::Write>(&self, f: &mut fmt::Formatter<W>) -> fmt::Result {
        let names = self.names;
        let before = self.before;
        for module in self.modules.iter() {
            let module = ModuleText {
                names,
                module: *module,
            };
            write!(f, "{before}{module}")?;
        }
        Ok(())
    }
}

impl<'a> fmt::Display for ModulesText<'a> {
    ghost output = { λ m. Some (modules_text (held m.names.now) m.between.now m.modules.now) };

    fn fmt<W: fmt::Write>(&self, f: &mut fmt::Formatter<W>) -> fmt::Result {
        let names = self.names;
        match self.modules {
            [] => Ok(()),
            [first, rest @ ..] => {
                let module = ModuleText {
                    names,
                    module: *first,
                };
                let more = EachModule {
                    names,
                    modules: rest,
                    before: self.between,
                };
                write!(f, "{module}{more}")
            }
        }
    }
}
