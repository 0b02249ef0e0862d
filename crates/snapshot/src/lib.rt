// A model as 233 bytes at fixed places: to keep it in a file, or to hand it to another language.
#![tactic(auto)]

ghost use Rattle.std.specs.Prelude.{◌≡◌, length};
ghost use Rattle.layout.specs.Fits.{Fits};
ghost use Rattle.layout.specs.Layout.{flags_fit, formed, loaded, nothing, restored, stored};

use device::Model;

mod fields;
mod number;

// Whether each of the 18 flags is 0 or 1.
fn flags_fit(bytes: &[u8]) -> bool
    requires { length bytes.now ≡ 233 }
    ensures { result ≡ flags_fit bytes.now 18 }
{
    bytes[1..19].iter().all(|flag| *flag < 2)
}

fn is_formed(bytes: &[u8]) -> bool
    ensures { result ≡ formed bytes.now }
{
    if bytes.len() == 233 {
        if bytes[0] == 1 {
            return flags_fit(bytes);
        }
    }
    false
}

fn restore(bytes: &[u8]) -> Model
    requires { length bytes.now ≡ 233 }
    ensures { result ≡ restored bytes.now }
{
    let d = number::doubles(bytes);
    let q = number::quadruples(bytes);
    let o = number::octuples(bytes);
    fields::model_of(bytes, d, q, o)
}

fn no_model() -> Model
    ensures { result ≡ nothing }
{
    let zeros = [0u8; 233];
    restore(&zeros)
}

// The model of some bytes; one that is not sound, and gets number 0 from every call, where they are of another length or
// version or hold a flag that is neither 0 nor 1.
pub fn load(bytes: &[u8]) -> Model
    ensures { result ≡ loaded bytes.now }
{
    if is_formed(bytes) {
        return restore(bytes);
    }
    no_model()
}

// The bytes of a model. Its arrays and numbers have the lengths and ranges of their types, so that what is stored loads again.
pub fn store(m: Model, bytes: &mut [u8])
    requires { length bytes.old ≡ 233 }
    ensures { (bytes.new ≡ stored m) × Fits m }
{
    let s = fields::single_of(m);
    let c = m.clock;
    let f = m.flight;
    let t = m.temperature;
    bytes[..s.len()].copy_from_slice(&s);
    number::put_doubles(fields::double_of(m), bytes);
    number::put_quadruples(fields::quadruple_of(c, f, t), bytes);
    number::put_octuples(fields::octuple_of(f, t), bytes);
}
