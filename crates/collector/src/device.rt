//! The device that takes the bytes of a dump.

ghost use Rattle.std.specs.Prelude.{◌≡◌, ◌≢◌, ◌+◌, ◌<◌, ◌≤◌, ◌++◌, [], ℕ, List, length, take, IfOk, IfErr, OnOk, OnErr};
ghost use Rattle.collector.specs.Written.{WroteAll, WroteSome};

/// A device has failed.
#[derive(Clone, Copy, Debug, PartialEq, Eq)]
pub struct DeviceError;

/// A device takes bytes. It has two properties: the bytes that it has taken, and how often it has failed.
pub trait Device {
    ghost taken: { Self → List ℕ };

    ghost failures: { Self → ℕ };

    /// Takes the first bytes, at least one where there is one, and returns how many; or fails and takes none.
    fn write(&mut self, bytes: &[u8]) -> Result<usize, DeviceError>
        ensures some { IfOk result (λ n. (n ≤ length bytes.now) × (bytes.now ≢ [] → 0 < n)) }
        ensures taken { IfOk result (λ n. (taken self.new ≡ taken self.old ++ take n bytes.now) ×
            (failures self.new ≡ failures self.old)) }
        ensures failed { IfErr result (λ _. (taken self.new ≡ taken self.old) ×
            (failures self.new ≡ failures self.old + 1)) };
}

/// Writes all bytes, or fails once, having written a beginning of them.
pub fn write_all<W: Device>(device: &mut W, bytes: &[u8]) -> Result<(), DeviceError>
    ensures ok { OnOk result (WroteAll (W.taken device.old) (W.failures device.old) bytes.now (W.taken device.new)
        (W.failures device.new)) }
    ensures err { OnErr result (WroteSome (W.taken device.old) (W.failures device.old) bytes.now (W.taken device.new)
        (W.failures device.new)) }
{
    let mut from = 0;
    while from < bytes.len() {
        match device.write(&bytes[from..]) {
            Ok(n) => from += n,
            Err(error) => return Err(error),
        }
    }
    Ok(())
}
