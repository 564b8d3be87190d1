// The number of the C library's interface. A crate of its own: nothing else is proved again where the number moves. `include/layer1.h` declares it.
#![tactic(auto)]

ghost use Rattle.std.specs.Prelude.{◌≡◌};
ghost use Rattle.version.specs.Version.{version};

// The number of the interface that the archive has, to be held against the header's LAYER1_VERSION.
#[unsafe(no_mangle)]
pub extern "C" fn layer1_version() -> u32
    ensures { result ≡ version }
{
    3
}
