// The cipher for C programs: triple DES in CBC and signatures, and single DES, on either engine, with keys and start values as byte areas
// of any length. The engine is a number: 0 plain, 1 quick. Another number, or a wrong length, is answered 0 and changes nothing.
#![tactic(auto)]

ghost use Rattle.std.specs.Prelude.{◌≡◌, ◌<◌, ◌≤◌, length, MatchOption};
ghost use Rattle.cipher_c.specs.Calls.{called, cbc_call, signature_call, des_call, des_each_call};

use tdes::Engine;

// The engine of a number, if it has one.
fn engine_of(number: u32) -> Option<Engine>
    ensures { MatchOption result (1 < number) (λ engine. number ≤ 1) }
{
    match number {
        0 => Some(Engine::Plain),
        1 => Some(Engine::Quick),
        _ => None,
    }
}

// CBC over the whole blocks of `text`, in place. Answers how many they are; 0 where the key hasn't 16 bytes or the start value 8.
#[unsafe(no_mangle)]
pub extern "C" fn cipher_cbc(engine: u32, key: &[u8], start: &[u8], text: &mut [u8]) -> usize
    ensures { called result text.new ≡ cbc_call engine key.now start.now text.old }
{
    let (Some(engine), Ok(key), Ok(start)) = (engine_of(engine), key.try_into(), start.try_into())
    else {
        return 0;
    };
    tdes::cbc_encipher(engine, key, start, text);
    text.len() / 8
}

// The signature of `text` at the front of `out`. Answers its 8 bytes; 0 where the key hasn't 16 bytes, the start value 8, or `out`
// has fewer than 8.
#[unsafe(no_mangle)]
pub extern "C" fn cipher_signature(
    engine: u32,
    key: &[u8],
    start: &[u8],
    text: &[u8],
    out: &mut [u8],
) -> usize
    ensures { called result out.new
        ≡ signature_call engine key.now start.now text.now out.old }
{
    let (Some(engine), Ok(key), Ok(start)) = (engine_of(engine), key.try_into(), start.try_into())
    else {
        return 0;
    };
    if out.len() < 8 {
        return 0;
    }
    let mac = tdes::signature(engine, key, start, text);
    octets::paste(out, 0, &mac);
    8
}

// Single DES over the whole blocks of `text`, enciphered in place under one key. Answers how many they are; 0 where the key hasn't 8 bytes.
#[unsafe(no_mangle)]
pub extern "C" fn cipher_des(engine: u32, key: &[u8], text: &mut [u8]) -> usize
    ensures { called result text.new ≡ des_call engine key.now text.old }
{
    let (Some(engine), Ok(key)) = (engine_of(engine), key.try_into()) else {
        return 0;
    };
    tdes::des_ecb(engine, key, false, text);
    text.len() / 8
}

// The same, each block under its own 8 bytes of `keys`. Answers how many they are; 0 where `keys` hasn't 8 bytes for each.
#[unsafe(no_mangle)]
pub extern "C" fn cipher_des_each(engine: u32, keys: &[u8], text: &mut [u8]) -> usize
    ensures { called result text.new ≡ des_each_call engine keys.now text.old }
{
    let Some(engine) = engine_of(engine) else {
        return 0;
    };
    if keys.len() != 8 * (text.len() / 8) {
        return 0;
    }
    tdes::des_each(engine, keys, false, text);
    text.len() / 8
}
