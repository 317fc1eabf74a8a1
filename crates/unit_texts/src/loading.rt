//! Bundles that are loaded for fewer harts than the commands do.

use bundle_text::read_bundle;
use rv_loader::{LoadFault, load};
use std::test::Fail;

const FORTY_TWO: &str =
    "task fuel 5 out 4 data 0\nwords 02a00513 00100893 00000073 00000893 00000073\nendtask\n";

const LONG: &str =
    "task fuel 100000 out 4 data 0\nwords 02a00513 00100893 00000073 00000893 00000073\nendtask\n";

const LAST: &str =
    "task fuel 24278 out 4 data 0\nwords 02a00513 00100893 00000073 00000893 00000073\nendtask\n";

const LONGER: &str =
    "task fuel 24279 out 4 data 0\nwords 02a00513 00100893 00000073 00000893 00000073\nendtask\n";

/// The lines after `bundle 1` and `slots 1`, the number of harts, and the refusal.
const BUNDLES: [(&[&str], u32, Option<LoadFault>); 6] = [
    (&["plan 1 tail 5\n", FORTY_TWO], 2, None),
    (
        &["plan 1 tail 5\n", FORTY_TWO],
        1,
        Some(LoadFault::PlanForMissingHart { hart: 1 }),
    ),
    (
        &[
            "plan 6 tail 1\nplan 5 tail 1\n",
            LONG,
            LONG,
            LONG,
            LONG,
            LONG,
            LONG,
        ],
        5,
        Some(LoadFault::PlanForMissingHart { hart: 6 }),
    ),
    (&[LONG, LONG, LONG, LONG, LONG, LAST], 8, None),
    (
        &[LONG, LONG, LONG, LONG, LONG, LONGER],
        7,
        Some(LoadFault::TooLong { bound: 1_048_577 }),
    ),
    (
        &[
            "plan 0 tail 1 quanta 1 2\n",
            LONG,
            LONG,
            LONG,
            LONG,
            LONG,
            LAST,
        ],
        4,
        None,
    ),
];

#[test]
fn loads(rt: HostRuntime) -> Result<(), Fail> {
    let alloc = rt.alloc();
    for (lines, harts, refusal) in &BUNDLES {
        let mut text = String::from_str(alloc, "bundle 1\nslots 1\n")?;
        for line in *lines {
            text.push_str(line)?;
        }
        assert!(rt; text.len() < 10_000);
        assert!(rt; 1 <= *harts && *harts <= 8);
        let bundle = read_bundle(alloc, text.as_bytes())?;
        assert_eq!(rt;
            load(alloc, &bundle, *harts).err(),
            *refusal,
            "{harts} harts, {text}"
        );
    }
    Ok(())
}
