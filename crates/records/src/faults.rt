// In which layer a fault of a collection's bytes lies.
ghost use Rattle.std.specs.Prelude.{◌≡◌};
ghost use Rattle.records.specs.Faults.{layer_of};

use mig::Refusal;

// The layer of a fault: 1 for the bytes, 2 for a record, 3 for what is then refused of its network.
pub fn layer(fault: Refusal) -> u8
    ensures { result ≡ layer_of fault }
{
    match fault {
        Refusal::BytesEndInRecord => 1,
        Refusal::WrongRecordLength | Refusal::UnknownRecordKind => 2,
        _ => 3,
    }
}
