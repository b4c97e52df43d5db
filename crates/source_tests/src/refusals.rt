use refusal::{Layer, Refusal};
use source::Fault;
use std::test::Fail;
use syntax::Span;

// The documents' table of refusals.
#[test]
fn table(rt: HostRuntime) -> Result<(), Fail> {
    let at = Span { start: 3, end: 5 };
    let full = Refusal::Full { slots: 1, text: 2 };
    let rows = [
        (Refusal::Damaged(at), 1, "Damaged", Layer::Grammar),
        (Refusal::OutOfPlace(at), 2, "OutOfPlace", Layer::Grammar),
        (Refusal::TooDeep(at), 3, "TooDeep", Layer::Grammar),
        (Refusal::BadSpan(at), 4, "BadSpan", Layer::Grammar),
        (Refusal::InvalidUTF8(at), 5, "InvalidUTF8", Layer::Literal),
        (
            Refusal::InvalidInteger(at),
            6,
            "InvalidInteger",
            Layer::Literal,
        ),
        (Refusal::InvalidFloat(at), 7, "InvalidFloat", Layer::Literal),
        (
            Refusal::InvalidEscape(at),
            8,
            "InvalidEscape",
            Layer::Literal,
        ),
        (
            Refusal::InvalidModifier(at),
            9,
            "InvalidModifier",
            Layer::Literal,
        ),
        (Refusal::BadToken(at), 10, "BadToken", Layer::Literal),
        (Refusal::TooLong, 11, "TooLong", Layer::Space),
        (full, 12, "Full", Layer::Space),
        (Refusal::SourceTooLarge, 13, "SourceTooLarge", Layer::Space),
        (Refusal::from(Fault::Cut), 14, "SourceFault", Layer::Source),
        (
            Refusal::FloatTooLong(at),
            15,
            "FloatTooLong",
            Layer::Literal,
        ),
    ];
    for (refusal, number, word, layer) in rows {
        assert_eq!(rt; refusal.number(), number);
        assert_eq!(rt; refusal.to_string(rt.alloc())?.as_str(), word);
        assert_eq!(rt; refusal.layer(), layer, "{refusal}");
    }
    assert_eq!(rt; Refusal::BadToken(at).place(), at);
    assert_eq!(rt; full.place(), Span::default());
    Ok(())
}
