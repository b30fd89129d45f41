ghost use Rattle.std.specs.Prelude.{◌≡◌};
ghost use Rattle.words.specs.Granule.{granule_of, is_base, address_at};

// The number of a granule in a guest address space. It is no address.
#[derive(Clone, Copy, PartialEq, Eq)]
pub struct Granule(pub u64);

impl Granule {
    // A granule's bytes.
    pub const SIZE: u64 = 4096;

    // The granule that holds an address, aligned or not.
    pub fn holding(address: u64) -> Granule
        ensures { result.0 ≡ granule_of address }
    {
        Granule(address / Granule::SIZE)
    }

    // Whether an address is aligned: the first of its granule.
    pub fn is_base(address: u64) -> bool
        ensures { result ≡ is_base address }
    {
        address % Granule::SIZE == 0
    }

    // The granule's first address, where 64 bits hold it.
    pub fn address(self) -> Option<u64>
        ensures { result ≡ address_at self.0 }
    {
        self.0.checked_mul(Granule::SIZE)
    }
}
