// The words of a row.
ghost use Rattle.std.specs.Prelude.{◌≡◌, [], ◌∷◌, ◌+◌, ◌*◌, ◌≤◌, length};
ghost use Rattle.base.specs.Put.{with_bytes};

// Stores the four words of row n.
#[tactic(auto, unfolding(base::specs::Put::with_bytes))]
pub fn put_row(rows: &mut [u32], n: u32, one: u32, two: u32, three: u32, four: u32)
    requires { 4 * n + 4 ≤ length rows.old }
    ensures { rows.new ≡ with_bytes rows.old (4 * n) (one ∷ two ∷ three ∷ four ∷ []) }
{
    let at = 4 * (n as usize);
    rows[at..at + 4].copy_from_slice(&[one, two, three, four]);
}
