// Arrays with a place for each vertex.
ghost use Rattle.std.specs.Prelude.{◌≡◌, ℕ, ◌≤◌, ◌<◌, length, get_or};

// 0 at each of the first m places.
pub fn clear(places: &mut [usize], m: usize)
    requires { m ≤ length places.old }
    ensures { (u : ℕ) → u < m → get_or places.new u 0 ≡ 0 }
{
    places[..m].fill(0);
}
