// The nineteen built-in types. Their names take the name numbers 0 to 18, in the order of one table.
ghost use Rattle.std.specs.Prelude.{◌≡◌, ◌<◌, ◌≤◌, Some, MatchOption};
ghost use Rattle.hir_def.specs.Builtins.{type_at, text_at, name_of};

use crate::Name;

#[derive(Clone, Copy, PartialEq, Eq, Hash, Debug)]
pub enum BuiltinInt {
    Isize,
    I8,
    I16,
    I32,
    I64,
    I128,
}

#[derive(Clone, Copy, PartialEq, Eq, Hash, Debug)]
pub enum BuiltinUint {
    Usize,
    U8,
    U16,
    U32,
    U64,
    U128,
}

#[derive(Clone, Copy, PartialEq, Eq, Hash, Debug)]
pub enum BuiltinFloat {
    F16,
    F32,
    F64,
    F128,
}

#[derive(Clone, Copy, PartialEq, Eq, Hash, Debug)]
pub enum BuiltinType {
    Char,
    Bool,
    Str,
    Int(BuiltinInt),
    Uint(BuiltinUint),
    Float(BuiltinFloat),
}

#[derive(Clone, Copy, Debug)]
struct BuiltinRow {
    text: &'static str,
    ty: BuiltinType,
}

// By name number.
const BUILTINS: &[BuiltinRow; 19] = &[
    BuiltinRow {
        text: "char",
        ty: BuiltinType::Char,
    },
    BuiltinRow {
        text: "bool",
        ty: BuiltinType::Bool,
    },
    BuiltinRow {
        text: "str",
        ty: BuiltinType::Str,
    },
    BuiltinRow {
        text: "isize",
        ty: BuiltinType::Int(BuiltinInt::Isize),
    },
    BuiltinRow {
        text: "i8",
        ty: BuiltinType::Int(BuiltinInt::I8),
    },
    BuiltinRow {
        text: "i16",
        ty: BuiltinType::Int(BuiltinInt::I16),
    },
    BuiltinRow {
        text: "i32",
        ty: BuiltinType::Int(BuiltinInt::I32),
    },
    BuiltinRow {
        text: "i64",
        ty: BuiltinType::Int(BuiltinInt::I64),
    },
    BuiltinRow {
        text: "i128",
        ty: BuiltinType::Int(BuiltinInt::I128),
    },
    BuiltinRow {
        text: "usize",
        ty: BuiltinType::Uint(BuiltinUint::Usize),
    },
    BuiltinRow {
        text: "u8",
        ty: BuiltinType::Uint(BuiltinUint::U8),
    },
    BuiltinRow {
        text: "u16",
        ty: BuiltinType::Uint(BuiltinUint::U16),
    },
    BuiltinRow {
        text: "u32",
        ty: BuiltinType::Uint(BuiltinUint::U32),
    },
    BuiltinRow {
        text: "u64",
        ty: BuiltinType::Uint(BuiltinUint::U64),
    },
    BuiltinRow {
        text: "u128",
        ty: BuiltinType::Uint(BuiltinUint::U128),
    },
    BuiltinRow {
        text: "f16",
        ty: BuiltinType::Float(BuiltinFloat::F16),
    },
    BuiltinRow {
        text: "f32",
        ty: BuiltinType::Float(BuiltinFloat::F32),
    },
    BuiltinRow {
        text: "f64",
        ty: BuiltinType::Float(BuiltinFloat::F64),
    },
    BuiltinRow {
        text: "f128",
        ty: BuiltinType::Float(BuiltinFloat::F128),
    },
];

impl BuiltinType {
    /// The built-in type of that name, if it is one of the nineteen.
    #[tactic(auto, using(crate::proofs::Tabled::by_table))]
    pub fn by_name(name: Name) -> Option<BuiltinType>
        ensures value { result ≡ type_at name }
        ensures names { MatchOption result (19 ≤ name.0) (λ b. name_of b ≡ name) }
    {
        if name.0 < 19 {
            Some(BUILTINS[name.0 as usize].ty)
        } else {
            None
        }
    }

    /// The name that the built-in type has.
    pub fn as_name(self) -> Name
        ensures value { result ≡ name_of self }
        ensures found { type_at result ≡ Some self }
    {
        match self {
            BuiltinType::Char => Name(0),
            BuiltinType::Bool => Name(1),
            BuiltinType::Str => Name(2),
            BuiltinType::Int(int) => Name(3 + int as u32),
            BuiltinType::Uint(uint) => Name(9 + uint as u32),
            BuiltinType::Float(float) => Name(15 + float as u32),
        }
    }

    /// The text of a built-in type's name, if that name is one of the nineteen.
    pub fn text(name: Name) -> Option<&'static str>
        ensures { MatchOption result (19 ≤ name.0) (λ t. (name.0 < 19) × (t.now ≡ text_at name)) }
    {
        if name.0 < 19 {
            Some(BUILTINS[name.0 as usize].text)
        } else {
            None
        }
    }
}
