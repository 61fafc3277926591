// The columns for the input type and the dimension: the names of their codes.
ghost use Rattle.std.specs.Prelude.{◌≡◌, ◌∷◌, ◌+◌, ◌≤◌, length};
ghost use Rattle.codes.specs.InputType.{input_type_row};
ghost use Rattle.codes.specs.Dimension.{dimension_row};
ghost use Rattle.text_output.specs.Cursor.{farthest};
ghost use Rattle.text_output.specs.Output.{Appended};
ghost use Rattle.listing.specs.Names.{input_type_name, listed_input_type, dimension_name, listed_dimension};
ghost use Rattle.listing.specs.Listing.{pad_to};

use crate::column::put_text;
use codes::{ResourceDimension, ResourceInputType};
use text_output::Output;

// The name of an input type.
fn input_type_name(of: ResourceInputType) -> &'static [u8]
    ensures name { result.now ≡ input_type_name (input_type_row of).0 }
    ensures short { length result.now ≤ 29 }
{
    match of {
        ResourceInputType::CBuffer => b"cbuffer",
        ResourceInputType::TBuffer => b"tbuffer",
        ResourceInputType::Texture => b"texture",
        ResourceInputType::Sampler => b"sampler",
        ResourceInputType::UavRwTyped => b"uav_rwtyped",
        ResourceInputType::Structured => b"structured",
        ResourceInputType::UavRwStructured => b"uav_rwstructured",
        ResourceInputType::ByteAddress => b"byteaddress",
        ResourceInputType::UavRwByteAddress => b"uav_rwbyteaddress",
        ResourceInputType::UavAppendStructured => b"uav_append_structured",
        ResourceInputType::UavConsumeStructured => b"uav_consume_structured",
        ResourceInputType::UavRwStructuredWithCounter => b"uav_rwstructured_with_counter",
        ResourceInputType::RtAccelerationStructure => b"rt_acceleration_structure",
        ResourceInputType::UavFeedbackTexture => b"uav_feedback_texture",
    }
}

// Writes a space and the name of an input type by its number.
pub(crate) fn put_input_type(out: &mut Output<'_>, n: u32)
    requires { out.old.at + 64 ≤ farthest }
    ensures text { Appended out.old out.new (32 ∷ pad_to 12 (listed_input_type n)) }
    ensures near { out.new.at ≤ out.old.at + 42 }
{
    let name: &[u8] = ResourceInputType::try_from(n).map_or(b"unknown", input_type_name);
    put_text(out, name, 12);
}

// The name of a dimension.
fn dimension_name(of: ResourceDimension) -> &'static [u8]
    ensures name { result.now ≡ dimension_name (dimension_row of).0 }
    ensures short { length result.now ≤ 29 }
{
    match of {
        ResourceDimension::Unknown => b"NA",
        ResourceDimension::Buffer => b"buf",
        ResourceDimension::Texture1D => b"1d",
        ResourceDimension::Texture1DArray => b"1darray",
        ResourceDimension::Texture2D => b"2d",
        ResourceDimension::Texture2DArray => b"2darray",
        ResourceDimension::Texture2DMS => b"2dMS",
        ResourceDimension::Texture2DMSArray => b"2dMSarray",
        ResourceDimension::Texture3D => b"3d",
        ResourceDimension::TextureCube => b"cube",
        ResourceDimension::TextureCubeArray => b"cubearray",
        ResourceDimension::BufferEx => b"bufex",
    }
}

// Writes a space and the name of a dimension by its number.
pub(crate) fn put_dimension(out: &mut Output<'_>, n: u32)
    requires { out.old.at + 64 ≤ farthest }
    ensures text { Appended out.old out.new (32 ∷ pad_to 8 (listed_dimension n)) }
    ensures near { out.new.at ≤ out.old.at + 38 }
{
    let name: &[u8] = ResourceDimension::try_from(n).map_or(b"NA", dimension_name);
    put_text(out, name, 8);
}
