// The residues modulo Q.
ghost use Rattle.std.specs.Prelude.{◌<◌};

pub(crate) mod arithmetic;

// A number below Q: each residue is held in one form.
#[derive(Clone, Copy, PartialEq, Eq)]
pub struct Residue<const Q: u32> {
    pub(crate) value: u32,
    ghost ok: { value < Q },
}
