// Which values a tag takes: its length and its range.
ghost use Rattle.std.specs.Prelude.{◌≡◌};
ghost use Rattle.commands_spec.specs.Data.{value_ok};

use octets::word_at;

// Whether a tag takes a value: a maximum is at most 32,767; bank information has no byte or 16, an agent's AID none or 5 to 16.
#[tactic(auto, unfolding(commands_spec::specs::Data::value_ok, commands_spec::specs::Data::maximum_ok, commands_spec::specs::Data::bank_length, commands_spec::specs::Data::agent_length))]
pub fn value_ok(tag: u8, v: &[u8]) -> bool
    ensures { result ≡ value_ok tag v.now }
{
    match tag {
        0x01 => v.len() == 4,
        0x02 | 0x05 => v.len() == 2,
        0x03 | 0x04 => v.len() == 2 && word_at(v, 0) <= 32767,
        0x06 => matches!(v.len(), 0 | 16),
        0x07 => matches!(v.len(), 0 | 5..=16),
        _ => false,
    }
}
