// Reading slots whose links and places are wrong.
#![tactic(auto)]

#[cfg(test)]
mod tests {
    use outline::{Form, show};
    use std::test::Fail;
    use syntax::Span;
    use tree::{Content, DECODED, NodeKind, Origin, Slot, Tree};

    fn linked(first: usize, next: usize) -> Slot {
        Slot {
            first,
            next,
            ..Slot::blank()
        }
    }

    fn named(kind: NodeKind, start: u32, end: u32, flags: u8) -> Slot {
        let slot = Slot::new(kind, Span { start, end });
        Slot {
            name: slot.span,
            flags,
            ..slot
        }
    }

    fn tree(slots: &[Slot]) -> Tree<'_, 'static> {
        Tree {
            slots,
            source: b"abc",
            text: b"xy",
        }
    }

    #[test]
    fn counts_children(rt: HostRuntime) {
        let slots = [linked(0, 2), linked(0, 0), linked(1, 0)];
        assert_eq!(rt; tree(&slots).operands(2), Some(2));
        assert_eq!(rt; tree(&slots).operands(0), Some(0));
        assert_eq!(rt; tree(&slots).operands(3), None);
        assert_eq!(rt; tree(&[]).operands(0), None);
    }

    #[test]
    fn refuses_rings(rt: HostRuntime) {
        assert_eq!(rt;
            tree(&[linked(0, 2), linked(0, 1), linked(1, 0)]).operands(2),
            None
        );
        assert_eq!(rt; tree(&[linked(1, 1)]).operands(0), None);
        assert_eq!(rt; tree(&[linked(0, 0), linked(2, 0)]).operands(1), Some(1));
    }

    #[test]
    fn refuses_links_behind_the_last(rt: HostRuntime) {
        assert_eq!(rt; tree(&[linked(0, 0), linked(3, 0)]).operands(1), None);
        assert_eq!(rt; tree(&[linked(0, 3), linked(1, 0)]).operands(1), None);
        assert_eq!(rt;
            tree(&[linked(0, usize::MAX), linked(1, 0)]).operands(1),
            None
        );
    }

    #[test]
    fn refuses_places(rt: HostRuntime) {
        let ident = |start, end| named(NodeKind::Ident, start, end, 0);
        assert_eq!(rt; tree(&[ident(0, 3)]).leaf(0), Some(Content::Name(b"abc")));
        assert_eq!(rt; tree(&[ident(3, 3)]).leaf(0), Some(Content::Name(b"")));
        assert_eq!(rt; tree(&[ident(0, 4)]).leaf(0), None);
        assert_eq!(rt; tree(&[ident(2, 1)]).leaf(0), None);
    }

    #[test]
    fn reads_by_kind_and_flag(rt: HostRuntime) {
        let string = |end, flags| named(NodeKind::LiteralString, 0, end, flags);
        assert_eq!(rt;
            tree(&[string(3, 0)]).leaf(0),
            Some(Content::String {
                origin: Origin::Source,
                value: b"abc",
                place: 0,
            })
        );
        assert_eq!(rt; tree(&[string(3, DECODED)]).leaf(0), None);
        assert_eq!(rt;
            tree(&[string(2, DECODED)]).leaf(0),
            Some(Content::String {
                origin: Origin::Decoded,
                value: b"xy",
                place: 0,
            })
        );
        assert_eq!(rt; tree(&[named(NodeKind::Or, 0, 3, 0)]).leaf(0), None);
        assert_eq!(rt;
            tree(&[named(NodeKind::LiteralInteger, 0, 1, 0)])
                .float(0)
                .is_some(),
            false
        );
    }

    #[test]
    fn displays_kinds(rt: HostRuntime) -> Result<(), Fail> {
        assert_eq!(rt; NodeKind::ForIn.to_string(rt.alloc())?.as_str(), "ForIn");
        Ok(())
    }

    #[test]
    fn shows_broken_links(rt: HostRuntime) -> Result<(), Fail> {
        let slots = [linked(2, 2), linked(1, 0)];
        let ring = Tree {
            slots: &slots,
            source: b"",
            text: b"",
        };
        let text = show(rt.alloc(), Form::Line, ring, 1)?;
        assert!(rt; text.as_str() == "Blank(Blank(<broken link 2>), <broken link 2>)");
        let none = show(rt.alloc(), Form::Line, ring, 2)?;
        assert!(rt; none.as_str() == "<broken link 3>");
        Ok(())
    }
}
