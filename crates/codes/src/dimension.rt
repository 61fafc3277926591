// The dimension of a bound resource (D3D_SRV_DIMENSION). Shader bytecode numbers dimensions otherwise: there 3 is a 2D texture, here a 1D array.
ghost use Rattle.std.specs.Prelude.{◌≡◌, IfErr};
ghost use Rattle.codes.specs.Table.{lookup};
ghost use Rattle.codes.specs.Microsoft.{srv_dimensions};
ghost use Rattle.codes.specs.Dimension.{dimension_row, dimension_answer};

use crate::unknown::UnknownCode;

#[derive(Clone, Copy, Debug, PartialEq, Eq, Hash)]
pub enum ResourceDimension {
    Unknown = 0,
    Buffer = 1,
    Texture1D = 2,
    Texture1DArray = 3,
    Texture2D = 4,
    Texture2DArray = 5,
    Texture2DMS = 6,
    Texture2DMSArray = 7,
    Texture3D = 8,
    TextureCube = 9,
    TextureCubeArray = 10,
    BufferEx = 11,
}

impl TryFrom<u32> for ResourceDimension {
    type Error = UnknownCode;

    ghost try_from_gives = { λ v r. (dimension_answer r ≡ lookup srv_dimensions v) × IfErr r (λ e. e.0 ≡ v) };

    #[tactic(auto, unfolding(crate::specs::Table::lookup, crate::specs::Microsoft::srv_dimensions))]
    fn try_from(v: u32) -> Result<Self, UnknownCode> {
        match v {
            0 => Ok(ResourceDimension::Unknown),
            1 => Ok(ResourceDimension::Buffer),
            2 => Ok(ResourceDimension::Texture1D),
            3 => Ok(ResourceDimension::Texture1DArray),
            4 => Ok(ResourceDimension::Texture2D),
            5 => Ok(ResourceDimension::Texture2DArray),
            6 => Ok(ResourceDimension::Texture2DMS),
            7 => Ok(ResourceDimension::Texture2DMSArray),
            8 => Ok(ResourceDimension::Texture3D),
            9 => Ok(ResourceDimension::TextureCube),
            10 => Ok(ResourceDimension::TextureCubeArray),
            11 => Ok(ResourceDimension::BufferEx),
            _ => Err(UnknownCode(v)),
        }
    }
}

impl From<ResourceDimension> for u32 {
    ghost from_gives = { λ x n. n ≡ (dimension_row x).1 };

    fn from(x: ResourceDimension) -> u32 {
        x as u32
    }
}
