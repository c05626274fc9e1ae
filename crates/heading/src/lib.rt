//! Start velocities: the box of whole velocities that a speed and an angle may mean, and the least speed that
//! covers a box.
#![tactic(auto)]

mod series;
mod velocity;

pub use spot_terms::VBox;
pub use velocity::{start_speed, velocity_box};

#[cfg(test)]
mod tests {
    use super::*;
    use std::test::Fail;

    fn box_of(xlo: i64, xhi: i64, ylo: i64, yhi: i64) -> VBox {
        VBox { xlo, xhi, ylo, yhi }
    }

    #[test]
    fn boxes(rt: HostRuntime) -> Result<(), Fail> {
        assert_eq!(rt; velocity_box(10000, 785398), box_of(7070, 7073, 7070, 7073));
        assert_eq!(rt; velocity_box(0, 0), box_of(-1, 1, -1, 1));
        assert_eq!(rt; velocity_box(10000, 0), box_of(9999, 10001, -1, 1));
        assert_eq!(rt;
            velocity_box(12345, -3141593),
            box_of(-12346, -12343, -1, 2)
        );
        assert_eq!(rt;
            velocity_box(-200000, -7000000),
            box_of(-150782, -150779, 131396, 131399)
        );
        Ok(())
    }

    #[test]
    fn start_speeds(rt: HostRuntime) -> Result<(), Fail> {
        assert_eq!(rt; start_speed(&velocity_box(10000, 785398)), 10003);
        assert_eq!(rt; start_speed(&velocity_box(0, 0)), 2);
        assert_eq!(rt; start_speed(&velocity_box(-200000, -7000000)), 200003);
        let greatest = VBox {
            xlo: -1000000,
            xhi: 1000000,
            ylo: -1000000,
            yhi: 1000000,
        };
        assert_eq!(rt; start_speed(&greatest), 1414214);
        let slanted = VBox {
            xlo: -3,
            xhi: 2,
            ylo: 1,
            yhi: 4,
        };
        assert_eq!(rt; start_speed(&slanted), 5);
        Ok(())
    }
}
