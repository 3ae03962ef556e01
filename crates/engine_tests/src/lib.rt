//! Tests of the engine on worked figures. `tests/oracle/check.py` shows the oracle on them.

#![tactic(auto)]

#[cfg(test)]
mod loose;
#[cfg(test)]
mod tables;

#[cfg(test)]
mod tests {
    use super::loose::Loose;
    use engine::band::Band;
    use engine::coordinate::is_coordinate;
    use engine::curve::{Bare, Curve};
    use engine::layer::{Chain, Clamp, Offset};
    use engine::refusal::{
        KNOT_COUNT, NO_KNOT, NOT_COORDINATE, NOT_RIGHTWARD, OUT_OF_LIMITS, OUT_OF_ORDER, Refusal,
        TOO_FAR_APART, UNKNOWN_KIND,
    };
    use engine::root::Root;
    use std::test::Fail;

    #[test]
    fn coordinates_end_at_both_ends(rt: HostRuntime) {
        assert!(rt; !is_coordinate(-8193) && is_coordinate(-8192));
        assert!(rt; is_coordinate(8191) && !is_coordinate(8192));
        assert_eq!(rt; Bare.value(-8193), -8192);
        assert_eq!(rt; Bare.value(-8192), -8192);
        assert_eq!(rt; Bare.value(8191), 8191);
        assert_eq!(rt; Bare.value(8192), 8191);
        assert_eq!(rt; Bare.value(i32::MIN), -8192);
        assert_eq!(rt; Bare.value(i32::MAX), 8191);
        assert_eq!(rt; (Bare.rise(), Bare.radius()), (1, 0));
    }

    #[test]
    fn bands_refuse_in_order(rt: HostRuntime) {
        for (a, b, number) in [
            (-8192, 8191, None),
            (7, 7, None),
            (-8193, 0, Some(1)),
            (0, 8192, Some(1)),
            (8192, -8193, Some(1)),
            (7, 6, Some(11)),
        ] {
            assert_eq!(rt;
                Band::new(a, b).err().map(Refusal::number),
                number,
                "{a}..{b}"
            );
        }
    }

    #[test]
    fn refusals_have_their_numbers(rt: HostRuntime) {
        assert_eq!(rt;
            (NOT_COORDINATE, KNOT_COUNT, NOT_RIGHTWARD, OUT_OF_ORDER),
            (1, 2, 3, 4)
        );
        assert_eq!(rt;
            (TOO_FAR_APART, NO_KNOT, UNKNOWN_KIND, OUT_OF_LIMITS),
            (5, 6, 7, 11)
        );
    }

    #[test]
    fn root_at_its_ends(rt: HostRuntime) {
        assert_eq!(rt; Root.value(-1), 0);
        assert_eq!(rt; Root.value(0), 0);
        assert_eq!(rt; Root.value(1), 256);
        assert_eq!(rt; Root.value(2), 362);
        assert_eq!(rt; Root.value(1023), 8187);
        assert_eq!(rt; Root.value(1024), 8187);
        assert_eq!(rt; Root.value(i32::MIN), 0);
        assert_eq!(rt; Root.value(i32::MAX), 8187);
        assert_eq!(rt; (Root.rise(), Root.radius()), (256, 0));
    }

    // The rise of root after root would be 65536.
    #[test]
    fn a_steep_chain_holds_its_rise(rt: HostRuntime) {
        let twice = Chain::new(Root, Root);
        assert_eq!(rt; twice.value(2), 4870);
        assert_eq!(rt; twice.value(16), 8187);
        assert_eq!(rt; (twice.rise(), twice.radius()), (16383, 0));
    }

    // The inner radius counts as often as the outer curve rises.
    #[test]
    fn a_chain_tells_its_radius(rt: HostRuntime) {
        assert_eq!(rt; Chain::new(Root, Loose::new(1)).radius(), 256);
        assert_eq!(rt; Chain::new(Loose::new(7), Loose::new(5)).radius(), 12);
        assert_eq!(rt; Chain::new(Root, Loose::new(63)).radius(), 16128);
        assert_eq!(rt; Chain::new(Root, Loose::new(64)).radius(), 16383);
        assert_eq!(rt; Offset::new(Loose::new(9), 3).radius(), 9);
        assert_eq!(rt; Clamp::new(Loose::new(9), Band::all()).radius(), 9);
    }

    // A shift past 16383 already takes every value to the end.
    #[test]
    fn an_offset_holds_its_shift(rt: HostRuntime) {
        let up = Offset::new(Bare, i32::MAX);
        assert_eq!(rt; up.value(-8192), 8191);
        let down = Offset::new(Bare, -5);
        assert_eq!(rt; down.value(-8190), -8192);
        assert_eq!(rt; down.value(8191), 8186);
        assert_eq!(rt; (down.rise(), down.radius()), (1, 0));
    }

    // Five layers as a channel piles them: a clamp over an offset over a chain, here of a clamped root after an offset.
    #[test]
    fn a_pile_of_five_layers(rt: HostRuntime) -> Result<(), Fail> {
        let root = Clamp::new(Root, Band::new(256, 8000)?);
        let chain = Chain::new(root, Offset::new(Bare, -40));
        let pile = Clamp::new(Offset::new(chain, -300), Band::new(-20, 7600)?);
        assert_eq!(rt; pile.value(-9000), -20);
        assert_eq!(rt; pile.value(41), -20);
        assert_eq!(rt; pile.value(42), 62);
        assert_eq!(rt; pile.value(900), 7207);
        assert_eq!(rt; pile.value(1063), 7600);
        assert_eq!(rt; (pile.rise(), pile.radius()), (256, 0));
        Ok(())
    }
}
