// What a binding is bound to (D3D_SHADER_INPUT_TYPE).
ghost use Rattle.std.specs.Prelude.{◌≡◌, IfErr};
ghost use Rattle.codes.specs.Table.{lookup};
ghost use Rattle.codes.specs.Microsoft.{input_types};
ghost use Rattle.codes.specs.InputType.{input_type_row, input_type_answer};

use crate::unknown::UnknownCode;

#[derive(Clone, Copy, Debug, PartialEq, Eq, Hash)]
pub enum ResourceInputType {
    CBuffer = 0,
    TBuffer = 1,
    Texture = 2,
    Sampler = 3,
    UavRwTyped = 4,
    Structured = 5,
    UavRwStructured = 6,
    ByteAddress = 7,
    UavRwByteAddress = 8,
    UavAppendStructured = 9,
    UavConsumeStructured = 10,
    UavRwStructuredWithCounter = 11,
    RtAccelerationStructure = 12,
    UavFeedbackTexture = 13,
}

impl TryFrom<u32> for ResourceInputType {
    type Error = UnknownCode;

    ghost try_from_gives = { λ v r. (input_type_answer r ≡ lookup input_types v) × IfErr r (λ e. e.0 ≡ v) };

    #[tactic(auto, unfolding(crate::specs::Table::lookup, crate::specs::Microsoft::input_types))]
    fn try_from(v: u32) -> Result<Self, UnknownCode> {
        match v {
            0 => Ok(ResourceInputType::CBuffer),
            1 => Ok(ResourceInputType::TBuffer),
            2 => Ok(ResourceInputType::Texture),
            3 => Ok(ResourceInputType::Sampler),
            4 => Ok(ResourceInputType::UavRwTyped),
            5 => Ok(ResourceInputType::Structured),
            6 => Ok(ResourceInputType::UavRwStructured),
            7 => Ok(ResourceInputType::ByteAddress),
            8 => Ok(ResourceInputType::UavRwByteAddress),
            9 => Ok(ResourceInputType::UavAppendStructured),
            10 => Ok(ResourceInputType::UavConsumeStructured),
            11 => Ok(ResourceInputType::UavRwStructuredWithCounter),
            12 => Ok(ResourceInputType::RtAccelerationStructure),
            13 => Ok(ResourceInputType::UavFeedbackTexture),
            _ => Err(UnknownCode(v)),
        }
    }
}

impl From<ResourceInputType> for u32 {
    ghost from_gives = { λ x n. n ≡ (input_type_row x).1 };

    fn from(x: ResourceInputType) -> u32 {
        x as u32
    }
}
