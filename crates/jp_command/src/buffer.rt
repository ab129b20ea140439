//! A buffer in front of a program's output.

ghost use Rattle.std.specs.Prelude.{◌≡◌, [], IfOk, false, length, nat_lt};
ghost use Rattle.std.specs.Io.Buffered.{writer_buffer, writer_contents, writer_inner};
ghost use Rattle.jp_command.specs.Buffered.{carrier_of};
ghost use Rattle.jp_command.specs.Device.{carried, carrier_failed, carrier_hung_up};

use crate::device::{Device, Failed, Output, Writer};
use std::alloc::Global;
use std::io::{self, BufWriter, Write};

/// How many bytes of output are gathered before they are written.
const OUTPUT_BUFFER: usize = 65_536;

/// Carries a writer with a buffer in front. It holds back what stands in the buffer.
#[derive(Drop)]
pub struct BufferedOutput<W: Write + Drop> {
    device: Device<BufWriter<W>>,
}

impl<W: Write + Drop> Writer for BufferedOutput<W> {
    ghost contents = { λ output. writer_contents W.contents (carried (carrier_of output)) };

    ghost has_failed = { λ output. carrier_failed (carrier_of output) };

    ghost hung_up = { λ output. carrier_hung_up (carrier_of output) };

    #[inline(always)]
    fn write(&mut self, bytes: &[u8]) -> Result<usize, Failed> {
        self.device.write(bytes)
    }

    fn failed(&self) -> bool {
        self.device.failed()
    }

    fn hung_up(&self) -> bool {
        self.device.hung_up()
    }
}

impl<W: Write + Drop> Output for BufferedOutput<W> {
    ghost holds_back = { λ output. nat_lt 0 (length (writer_buffer (carried (carrier_of output)))) };

    fn flush(&mut self) -> Result<(), Failed> {
        match self.device.inner.flush() {
            Ok(()) => {
                self.device.holds_back = false;
                Ok(())
            }
            Err(error) => self.device.fail_by(&error),
        }
    }
}

/// Carries a writer with a buffer in front. The only error is that there is no memory for it.
pub fn buffered<W: Write + Drop>(alloc: Global, writer: W) -> io::Result<BufferedOutput<W>>
    ensures carries { IfOk result (λ output. writer_inner (carried (carrier_of output)) ≡ writer) }
    ensures empty { IfOk result (λ output. writer_buffer (carried (carrier_of output)) ≡ []) }
    ensures fresh { IfOk result (λ output. carrier_failed (carrier_of output) ≡ false) }
    ensures reader { IfOk result (λ output. carrier_hung_up (carrier_of output) ≡ false) }
{
    let buffer = BufWriter::with_capacity(alloc, OUTPUT_BUFFER, writer)?;
    Ok(BufferedOutput {
        device: Device::new(buffer),
    })
}

/// Takes the buffer away. What it still holds, as it does after a write that failed, is not written.
pub fn unbuffered<W: Write + Drop>(output: BufferedOutput<W>) -> W
    ensures { result ≡ writer_inner (carried (carrier_of output)) }
{
    let BufferedOutput { device } = output;
    let (writer, _unwritten) = device.into_inner().into_parts();
    writer
}
