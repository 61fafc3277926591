// The flags of a binding (D3D_SHADER_INPUT_FLAGS): 0x2 is a comparison sampler.
ghost use Rattle.std.specs.Prelude.{◌≡◌};
ghost use Rattle.codes.specs.Microsoft.{D3D_SIF_USERPACKED, D3D_SIF_COMPARISON_SAMPLER, D3D_SIF_UNUSED};
ghost use Rattle.codes.specs.Microsoft.{D3D_SIF_TEXTURE_COMPONENT_0, D3D_SIF_TEXTURE_COMPONENT_1};
ghost use Rattle.flags.specs.Flags.{flag, binding_flags_allowed};

// Microsoft's masks, D3D_SIF_...
const SIF_USERPACKED: u32 = 0x1;

const SIF_COMPARISON_SAMPLER: u32 = 0x2;

const SIF_TEXTURE_COMPONENT_0: u32 = 0x4;

const SIF_TEXTURE_COMPONENT_1: u32 = 0x8;

const SIF_TEXTURE_COMPONENTS: u32 = SIF_TEXTURE_COMPONENT_0 | SIF_TEXTURE_COMPONENT_1;

const SIF_UNUSED: u32 = 0x10;

// All of Microsoft's masks together.
const SIF_MASKS: u32 = SIF_USERPACKED
    | SIF_COMPARISON_SAMPLER
    | SIF_TEXTURE_COMPONENTS
    | SIF_UNUSED;

#[derive(Clone, Copy, Debug, PartialEq, Eq, Hash)]
pub struct BindingFlags(pub u32);

// Each test is one `&`; a helper for all would have to require that its mask is one bit.
#[tactic(auto, using(crate::proofs::Masks::mask_is_flag))]
impl BindingFlags {
    pub fn user_packed(self) -> bool
        ensures { result ≡ flag D3D_SIF_USERPACKED self.0 }
    {
        self.0 & SIF_USERPACKED != 0
    }

    pub fn comparison_sampler(self) -> bool
        ensures { result ≡ flag D3D_SIF_COMPARISON_SAMPLER self.0 }
    {
        self.0 & SIF_COMPARISON_SAMPLER != 0
    }

    pub fn texture_component_0(self) -> bool
        ensures { result ≡ flag D3D_SIF_TEXTURE_COMPONENT_0 self.0 }
    {
        self.0 & SIF_TEXTURE_COMPONENT_0 != 0
    }

    pub fn texture_component_1(self) -> bool
        ensures { result ≡ flag D3D_SIF_TEXTURE_COMPONENT_1 self.0 }
    {
        self.0 & SIF_TEXTURE_COMPONENT_1 != 0
    }

    pub fn unused(self) -> bool
        ensures { result ≡ flag D3D_SIF_UNUSED self.0 }
    {
        self.0 & SIF_UNUSED != 0
    }

    // No bit outside Microsoft's masks.
    #[tactic(auto, using(crate::proofs::Masks::allowed_is_and))]
    pub fn allowed(self) -> bool
        ensures { result ≡ binding_flags_allowed self.0 }
    {
        self.0 & !SIF_MASKS == 0
    }
}
