// The flags of a variable (D3D_SHADER_VARIABLE_FLAGS): 0x2 is "used".
ghost use Rattle.std.specs.Prelude.{◌≡◌};
ghost use Rattle.codes.specs.Microsoft.{D3D_SVF_USERPACKED, D3D_SVF_USED, D3D_SVF_INTERFACE_POINTER, D3D_SVF_INTERFACE_PARAMETER};
ghost use Rattle.flags.specs.Flags.{flag};

// Microsoft's masks, D3D_SVF_...
const SVF_USERPACKED: u32 = 0x1;

const SVF_USED: u32 = 0x2;

const SVF_INTERFACE_POINTER: u32 = 0x4;

const SVF_INTERFACE_PARAMETER: u32 = 0x8;

#[derive(Clone, Copy, Debug, PartialEq, Eq, Hash)]
pub struct VariableFlags(pub u32);

// Each test is one `&`; a helper for all would have to require that its mask is one bit.
#[tactic(auto, using(crate::proofs::Masks::mask_is_flag))]
impl VariableFlags {
    pub fn user_packed(self) -> bool
        ensures { result ≡ flag D3D_SVF_USERPACKED self.0 }
    {
        self.0 & SVF_USERPACKED != 0
    }

    pub fn used(self) -> bool
        ensures { result ≡ flag D3D_SVF_USED self.0 }
    {
        self.0 & SVF_USED != 0
    }

    pub fn interface_pointer(self) -> bool
        ensures { result ≡ flag D3D_SVF_INTERFACE_POINTER self.0 }
    {
        self.0 & SVF_INTERFACE_POINTER != 0
    }

    pub fn interface_parameter(self) -> bool
        ensures { result ≡ flag D3D_SVF_INTERFACE_PARAMETER self.0 }
    {
        self.0 & SVF_INTERFACE_PARAMETER != 0
    }
}
