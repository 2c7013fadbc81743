ghost use Rattle.std.specs.Prelude.{◌≡◌};

use super::*;
use ghcb_page::GhcbPage;
use ghcb_page::bytes::{put_bytes, put_u64, u64_at};
use psc_batch::Host;
use std::test::Fail;
use svsm_types::{CoreLine, Gpa, Page, Row, RowState, Vmpl};

// A host that keeps RAX and both info values of the last exit, and refuses the exit with a number.
#[derive(Drop)]
struct Keeper {
    last: (u64, u64, u64),
    exits: u64,
    refused: u64,
}

impl Host for Keeper {
    ghost use Rattle.std.specs.Prelude.{⊤};

    ghost answers = { λ _ _ _ _. ⊤ };

    ghost returns = { λ _ _ _ _. ⊤ };

    fn msr(&mut self, _sent: u64) -> u64 {
        0
    }

    fn exit(&mut self, page: &mut GhcbPage) {
        let bytes = page.bytes_mut();
        self.last = (
            u64_at(bytes, 0x1F8),
            u64_at(bytes, 0x398),
            u64_at(bytes, 0x3A0),
        );
        let error = if self.exits == self.refused { 5 } else { 0 };
        put_u64(bytes, 0x398, 0);
        put_u64(bytes, 0x3A0, error);
        self.exits = self.exits.saturating_add(1);
    }
}

const CORES: [CoreLine; 2] = [
    CoreLine {
        apic: 0,
        seat: Some((Page(0x10), Gpa(0x20000))),
        vmpl: Vmpl(2),
    },
    CoreLine {
        apic: 1,
        seat: None,
        vmpl: Vmpl(2),
    },
];

fn row(apic: u32, page: u64, state: RowState) -> Row
    ensures { result.apic ≡ apic }
{
    Row {
        apic,
        page: Page(page),
        caa: Gpa(0x20000),
        state,
    }
}

// A host that keeps each byte of the page as it is sent.
#[derive(Drop)]
struct Copier {
    seen: [u8; 4096],
}

impl Host for Copier {
    ghost use Rattle.std.specs.Prelude.{⊤};

    ghost answers = { λ _ _ _ _. ⊤ };

    ghost returns = { λ _ _ _ _. ⊤ };

    fn msr(&mut self, _sent: u64) -> u64 {
        0
    }

    fn exit(&mut self, page: &mut GhcbPage) {
        let bytes = page.bytes_mut();
        self.seen.copy_from_slice(bytes);
        put_u64(bytes, 0x398, 0);
        put_u64(bytes, 0x3A0, 0);
    }
}

fn make_keeper(refused: u64) -> Keeper {
    Keeper {
        last: (0, 0, 0),
        exits: 0,
        refused,
    }
}

const CREATE: ApExit = ApExit {
    create: true,
    apic: 1,
    vmpl: Vmpl(2),
    page: Page(0x30),
};

const DESTROY: ApExit = ApExit {
    create: false,
    apic: 0,
    vmpl: Vmpl(2),
    page: Page(0x10),
};

#[test]
fn waves_have_the_exits_of_their_differences(rt: HostRuntime) -> Result<(), Fail> {
    let first = [row(0, 0x10, RowState::Ready)];
    let second = [row(0, 0x10, RowState::Left), row(1, 0x30, RowState::Ready)];
    let third = [
        row(1, 0x30, RowState::Left),
        row(0, 0x40, RowState::Reserved),
    ];
    let created = differences(rt.alloc(), &CORES, &first, &second)?;
    assert_eq!(rt; created.as_slice(), [CREATE].as_slice());
    let destroyed = differences(rt.alloc(), &CORES, &second, &third)?;
    assert_eq!(rt; destroyed.as_slice(), [DESTROY].as_slice());
    // Deleted and created again in one wave, in the same page.
    let again = [row(0, 0x10, RowState::Ready)];
    let none = differences(rt.alloc(), &CORES, &first, &again)?;
    assert_eq!(rt; none.len(), 0);
    Ok(())
}

#[test]
fn exits_are_made_up_to_the_refused_one(rt: HostRuntime) -> Result<(), Fail> {
    let mut page = GhcbPage::new(rt.alloc())?;
    let mut host = make_keeper(9);
    assert_eq!(rt;
        announce(&mut page, &mut host, 1, &[DESTROY, CREATE]),
        Ok(())
    );
    assert_eq!(rt; host.exits, 2);
    assert_eq!(rt; host.last, (1, 0x1_0002_0001, 0x30000));
    // The second of three is refused.
    let mut host = make_keeper(1);
    let said = ApError::Said {
        index: 1,
        info1: 0,
        info2: 5,
    };
    assert_eq!(rt;
        announce(&mut page, &mut host, 1, &[CREATE, DESTROY, CREATE]),
        Err(said)
    );
    assert_eq!(rt; host.exits, 2);
    assert_eq!(rt; host.last, (1, 0x2_0002, 0x10000));
    Ok(())
}

#[test]
fn an_exit_writes_its_fields_and_no_other_byte(rt: HostRuntime) -> Result<(), Fail> {
    let mut page = GhcbPage::new(rt.alloc())?;
    put_bytes(page.bytes_mut(), 0, &[0xAA; 4096]);
    let mut host = Copier { seen: [0; 4096] };
    assert_eq!(rt; announce(&mut page, &mut host, 1, &[CREATE]), Ok(()));
    let mut expected = [0xAA; 4096];
    // RAX: the features of the VMSA.
    expected[0x1F8..0x200].copy_from_slice(&[1, 0, 0, 0, 0, 0, 0, 0]);
    // SW_EXITCODE, SW_EXITINFO1, SW_EXITINFO2 and SW_SCRATCH.
    expected[0x390..0x398].copy_from_slice(&[0x13, 0, 0, 0x80, 0, 0, 0, 0]);
    expected[0x398..0x3A0].copy_from_slice(&[1, 0, 2, 0, 1, 0, 0, 0]);
    expected[0x3A0..0x3A8].copy_from_slice(&[0, 0, 3, 0, 0, 0, 0, 0]);
    expected[0x3A8..0x3B0].copy_from_slice(&[0; 8]);
    // The valid bitmap: these five fields.
    expected[0x3F0..0x400].copy_from_slice(&[0, 0, 0, 0, 0, 0, 0, 0x80, 0, 0, 0, 0, 0, 0, 0x3C, 0]);
    // Version 2 and usage 0.
    expected[0xFFA..0x1000].copy_from_slice(&[2, 0, 0, 0, 0, 0]);
    assert_eq!(rt; host.seen.as_slice(), expected.as_slice());
    Ok(())
}

#[test]
fn exits_are_lines_of_a_report(rt: HostRuntime) -> Result<(), Fail> {
    let mut out = Vec::new(rt.alloc());
    put_ap(&mut out, &[CREATE, DESTROY], Some((0, 5)))?;
    assert_eq!(rt;
        out.as_slice(),
        b"ap create 0x1 0x2 0x30000\nap destroy 0x0 0x2 0x10000\nap refused 0x0 0x5\n".as_slice()
    );
    Ok(())
}
