// What a name comes to where it is used, by the records above and the links of names. Every function takes any tables.
#![tactic(auto)]

ghost use Rattle.std.specs.Prelude.{◌≡◌};
ghost use Rattle.uses.specs.code.Uses.{record_value, use_in};

use places::ElementNumber;
use values::Value;

// What record j comes to for those that use its name.
fn record_value(items: &[u64], j: usize) -> Value
    ensures { result ≡ record_value items.now j }
{
    let class = records::word(items, j, pieces::CLASS);
    let state = records::word(items, j, pieces::STATE);
    let kind = records::word(items, j, pieces::KIND);
    let low = records::word(items, j, pieces::LOW);
    let high = records::word(items, j, pieces::HIGH);
    values::used_value(class, state, kind, low, high)
}

// Element e used as a name in piece i.
pub fn use_of(
    text: &[u8],
    elements: &[u64],
    items: &[u64],
    links: &[u64],
    i: usize,
    e: ElementNumber,
) -> Value
    ensures { result ≡ use_in text.now elements.now items.now links.now i e.0 }
{
    let language = names::language(text, elements, e);
    let link = lent_tables::word_at(links, e.0);
    if language != 0 {
        if link != 0 {
            return Value::Without(states::LEANS);
        }
        return values::language_value(language);
    }
    if link == 0 {
        return Value::Without(states::UNKNOWN);
    }
    let j = (link - 1) as usize;
    if j < i {
        return record_value(items, j);
    }
    Value::Without(states::UNKNOWN)
}
