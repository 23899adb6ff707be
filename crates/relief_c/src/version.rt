// The version, so that a caller and a library of different ones do not link: MAJOR and MINOR are in the
// name, which include/relief.h, the Rust wrapper and the Python package ask the linker for; PATCH is
// what it gives.

ghost use Rattle.std.specs.Prelude.{◌≡◌};

#[unsafe(no_mangle)]
pub extern "C" fn relief_version_0_5() -> u32
    ensures { result ≡ 0 }
{
    0
}
