// Numbers as bytes, low byte first.
ghost use Rattle.std.specs.Prelude.{◌≡◌, length, drop};
ghost use Rattle.std.proofs.lemmas.List.Edits.{sets};
ghost use Rattle.layout.specs.Number.{all_bytes, bound, numbers};
ghost use Rattle.layout.specs.Fits.{Below};

// Three readers and three writers, of three lines each: one over the number's type would need a trait with clauses of its own.
// The numbers of two bytes.
pub fn doubles(bytes: &[u8]) -> [u16; 18]
    requires { length bytes.now ≡ 233 }
    ensures { result ≡ numbers 2 18 (drop 25 bytes.now) }
{
    let (chunks, _) = bytes[25..].as_chunks();
    let mut d = [0; 18];
    for i in 0..18 {
        d[i] = u16::from_le_bytes(chunks[i]);
    }
    d
}

// The numbers of four bytes.
pub fn quadruples(bytes: &[u8]) -> [u32; 33]
    requires { length bytes.now ≡ 233 }
    ensures { result ≡ numbers 4 33 (drop 61 bytes.now) }
{
    let (chunks, _) = bytes[61..].as_chunks();
    let mut q = [0; 33];
    for i in 0..33 {
        q[i] = u32::from_le_bytes(chunks[i]);
    }
    q
}

// The numbers of eight bytes.
pub fn octuples(bytes: &[u8]) -> [u64; 5]
    requires { length bytes.now ≡ 233 }
    ensures { result ≡ numbers 8 5 (drop 193 bytes.now) }
{
    let (chunks, _) = bytes[193..].as_chunks();
    let mut o = [0; 5];
    for i in 0..5 {
        o[i] = u64::from_le_bytes(chunks[i]);
    }
    o
}

pub fn put_doubles(d: [u16; 18], bytes: &mut [u8])
    requires { length bytes.old ≡ 233 }
    ensures { (bytes.new ≡ sets bytes.old 25 (all_bytes 2 d)) × Below (bound 2) d }
{
    for (i, x) in d.iter().enumerate() {
        let at = 25 + 2 * i;
        bytes[at..at + 2].copy_from_slice(&x.to_le_bytes());
    }
}

pub fn put_quadruples(q: [u32; 33], bytes: &mut [u8])
    requires { length bytes.old ≡ 233 }
    ensures { (bytes.new ≡ sets bytes.old 61 (all_bytes 4 q)) × Below (bound 4) q }
{
    for (i, x) in q.iter().enumerate() {
        let at = 61 + 4 * i;
        bytes[at..at + 4].copy_from_slice(&x.to_le_bytes());
    }
}

pub fn put_octuples(o: [u64; 5], bytes: &mut [u8])
    requires { length bytes.old ≡ 233 }
    ensures { (bytes.new ≡ sets bytes.old 193 (all_bytes 8 o)) × Below (bound 8) o }
{
    for (i, x) in o.iter().enumerate() {
        let at = 193 + 8 * i;
        bytes[at..at + 8].copy_from_slice(&x.to_le_bytes());
    }
}
