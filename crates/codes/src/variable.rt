// A variable's class (D3D_SHADER_VARIABLE_CLASS), and the variable types (D3D_SHADER_VARIABLE_TYPE) that have a spelling.
ghost use Rattle.std.specs.Prelude.{◌≡◌, IfErr};
ghost use Rattle.codes.specs.Table.{lookup};
ghost use Rattle.codes.specs.Microsoft.{variable_classes};
ghost use Rattle.codes.specs.Variable.{base_types, class_row, class_answer, base_type_row, base_type_answer};

use crate::unknown::UnknownCode;

#[derive(Clone, Copy, Debug, PartialEq, Eq, Hash)]
pub enum VariableClass {
    Scalar = 0,
    Vector = 1,
    MatrixRows = 2,
    MatrixColumns = 3,
    Object = 4,
    Struct = 5,
    InterfaceClass = 6,
    InterfacePointer = 7,
}

// The variable types that HLSL spells by a word: bool, int, float, uint, double.
#[derive(Clone, Copy, Debug, PartialEq, Eq, Hash)]
pub enum BaseType {
    Bool = 1,
    Int = 2,
    Float = 3,
    Uint = 19,
    Double = 39,
}

impl TryFrom<u32> for VariableClass {
    type Error = UnknownCode;

    ghost try_from_gives = { λ v r. (class_answer r ≡ lookup variable_classes v) × IfErr r (λ e. e.0 ≡ v) };

    #[tactic(auto, unfolding(crate::specs::Table::lookup, crate::specs::Microsoft::variable_classes))]
    fn try_from(v: u32) -> Result<Self, UnknownCode> {
        match v {
            0 => Ok(VariableClass::Scalar),
            1 => Ok(VariableClass::Vector),
            2 => Ok(VariableClass::MatrixRows),
            3 => Ok(VariableClass::MatrixColumns),
            4 => Ok(VariableClass::Object),
            5 => Ok(VariableClass::Struct),
            6 => Ok(VariableClass::InterfaceClass),
            7 => Ok(VariableClass::InterfacePointer),
            _ => Err(UnknownCode(v)),
        }
    }
}

impl From<VariableClass> for u32 {
    ghost from_gives = { λ x n. n ≡ (class_row x).1 };

    fn from(x: VariableClass) -> u32 {
        x as u32
    }
}

impl TryFrom<u32> for BaseType {
    type Error = UnknownCode;

    ghost try_from_gives = { λ v r. (base_type_answer r ≡ lookup base_types v) × IfErr r (λ e. e.0 ≡ v) };

    #[tactic(auto, unfolding(crate::specs::Table::lookup, crate::specs::Variable::base_types))]
    fn try_from(v: u32) -> Result<Self, UnknownCode> {
        match v {
            1 => Ok(BaseType::Bool),
            2 => Ok(BaseType::Int),
            3 => Ok(BaseType::Float),
            19 => Ok(BaseType::Uint),
            39 => Ok(BaseType::Double),
            _ => Err(UnknownCode(v)),
        }
    }
}

impl From<BaseType> for u32 {
    ghost from_gives = { λ x n. n ≡ (base_type_row x).1 };

    fn from(x: BaseType) -> u32 {
        x as u32
    }
}
