// How many pixels and pairs a raster of an allowed size has.

ghost use Rattle.std.specs.Prelude.{◌≡◌, true, ◌*◌, length};
ghost use Rattle.model.specs.Grid.{size_allowed, grid_pairs};

pub fn pixels(width: u32, height: u32) -> usize
    requires { size_allowed width height ≡ true }
    ensures { result ≡ width * height }
{
    (width as usize) * (height as usize)
}

// Pairs of a pixel and the one below it, then pairs of a pixel and the one to its right.
pub fn pairs(width: u32, height: u32) -> usize
    requires { size_allowed width height ≡ true }
    ensures { result ≡ length (grid_pairs width height) }
{
    let w = width as usize;
    let h = height as usize;
    w * (h - 1) + h * (w - 1)
}
