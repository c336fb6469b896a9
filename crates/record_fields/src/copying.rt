// Numbers and bytes copied between a record and lists. A number of two bytes has its high byte first.
ghost use Rattle.std.specs.Prelude.{[], ◌∷◌, ◌≡◌, ◌+◌, ◌*◌, ◌≤◌, ◌<◌, length};
ghost use Rattle.std.proofs.lemmas.List.Edits.{sets};
ghost use Rattle.record_fields.specs.Fields.{two, numbers, split};

// The number at place `at`.
pub fn number(s: &[u8], at: usize) -> u16
    requires { at + 1 < length s.now }
    ensures { result ≡ two s.now at }
{
    u16::from(s[at]) * 256 + u16::from(s[at + 1])
}

// Writes a number to out at place `at`.
pub fn number_in(x: u16, out: &mut [u8], at: usize)
    requires { at + 1 < length out.old }
    ensures { out.new ≡ sets out.old at (split (x ∷ [])) }
{
    out[at] = (x / 256) as u8;
    out[at + 1] = (x % 256) as u8;
}

// Writes the m numbers from place `at` of s on to out's first places.
pub fn numbers_out(s: &[u8], at: usize, m: usize, out: &mut [u16])
    requires { (at + 2 * m ≤ length s.now) × (m ≤ length out.old) }
    ensures { out.new ≡ sets out.old 0 (numbers s.now at m) }
{
    for i in 0..m {
        out[i] = number(s, at + 2 * i);
    }
}

// Writes the bytes of list to out from place `at` on.
pub fn bytes_in(list: &[u8], out: &mut [u8], at: usize)
    requires { at + length list.now ≤ length out.old }
    ensures { out.new ≡ sets out.old at list.now }
{
    // The library's copy was tried: it makes `memmove` of the parts of packing and unpacking, a name that the archive
    // for C would need from outside.
    for (i, &x) in list.iter().enumerate() {
        out[at + i] = x;
    }
}

// Writes the numbers of list to out's first places.
pub fn copied(list: &[u16], out: &mut [u16])
    requires { length list.now ≤ length out.old }
    ensures { out.new ≡ sets out.old 0 list.now }
{
    out[..list.len()].copy_from_slice(list);
}

// Writes the numbers of list to out from place `at` on, two bytes each.
pub fn numbers_in(list: &[u16], out: &mut [u8], at: usize)
    requires { at + 2 * length list.now ≤ length out.old }
    ensures { out.new ≡ sets out.old at (split list.now) }
{
    for (i, &x) in list.iter().enumerate() {
        number_in(x, out, at + 2 * i);
    }
}
