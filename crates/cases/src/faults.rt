ghost use Rattle.std.specs.Prelude.{◌≡◌, ◌<◌};
ghost use Rattle.std.specs.Int.NonZero.{non_zero_u16_get};

use source::SourceFault;

// The fault with this code.
pub(crate) fn fault(code: u16) -> SourceFault
    requires { 0 < code }
    ensures { non_zero_u16_get result.0 ≡ code }
{
    SourceFault::new(code).unwrap()
}

#[test]
fn a_fault_keeps_its_code_and_none_has_0(rt: HostRuntime) {
    assert_eq!(rt; SourceFault::new(0), None);
    assert_eq!(rt; fault(1).code(), 1);
    assert_eq!(rt; fault(65_535).code(), 65_535);
}
