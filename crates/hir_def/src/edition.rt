// The editions of Rust.
ghost use Rattle.std.specs.Prelude.{◌≡◌, Some};
ghost use Rattle.hir_def.specs.Editions.{edition_of, edition_text};

use std::fmt;
use std::str::FromStr;
use thiserror::Error;

#[derive(Clone, Copy, PartialEq, Eq, Hash, Debug)]
pub enum Edition {
    Edition2015,
    Edition2018,
    Edition2021,
    Edition2024,
}

/// The text is none of `2015`, `2018`, `2021` and `2024`.
#[derive(Clone, Copy, PartialEq, Eq, Debug, Error)]
#[error("this is no edition: 2015, 2018, 2021 or 2024")]
pub struct UnknownEdition;

impl FromStr for Edition {
    type Err = UnknownEdition;

    ghost from_str_gives = { λ text result. result ≡ edition_of text };

    fn from_str(text: &str) -> Result<Edition, UnknownEdition> {
        match text {
            "2015" => Ok(Edition::Edition2015),
            "2018" => Ok(Edition::Edition2018),
            "2021" => Ok(Edition::Edition2021),
            "2024" => Ok(Edition::Edition2024),
            _ => Err(UnknownEdition),
        }
    }
}

impl fmt::Display for Edition {
    ghost output = { λ edition. Some (edition_text edition) };

    fn fmt<W: fmt::Write>(&self, f: &mut fmt::Formatter<W>) -> fmt::Result {
        f.write_str(match self {
            Edition::Edition2015 => "2015",
            Edition::Edition2018 => "2018",
            Edition::Edition2021 => "2021",
            Edition::Edition2024 => "2024",
        })
    }
}
