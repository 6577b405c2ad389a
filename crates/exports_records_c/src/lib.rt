// The C functions of exports_records, for the archive: each calls that crate's of its name, with the same clauses. include/xelamphoun.h declares them.
#![tactic(auto)]

ghost use Rattle.std.specs.Prelude.{◌≡◌};
ghost use Rattle.base_refusals.specs.Outcome.{kept_by};
ghost use Rattle.base_refusals.specs.Codes.{code, value_or};
ghost use Rattle.record_histogram.specs.Record.{read_histogram, read_third_histogram};
ghost use Rattle.record_histogram.specs.Writing.{write_histogram, write_third_histogram};
ghost use Rattle.history_queue.specs.Queue.{over};
ghost use Rattle.record_queue_reader.specs.QueueRecord.{read_queue, read_third_queue};
ghost use Rattle.record_queue_writer.specs.Writing.{write_queue, write_third_queue};
ghost use Rattle.record_conversion.specs.Conversion.{converted_asked};

use bins::Count;

// ---- histograms
#[unsafe(no_mangle)]
pub extern "C" fn xel_histogram_read(bytes: &[u8], counters: &mut [Count]) -> u8
    ensures { (result ≡ code (read_histogram bytes.now counters.old))
        × (counters.new ≡ kept_by counters.old (read_histogram bytes.now counters.old)) }
{
    exports_records::xel_histogram_read(bytes, counters)
}

#[unsafe(no_mangle)]
pub extern "C" fn xel_third_histogram_read(bytes: &[u8], counters: &mut [Count]) -> u8
    ensures { (result ≡ code (read_third_histogram bytes.now counters.old))
        × (counters.new ≡ kept_by counters.old (read_third_histogram bytes.now counters.old)) }
{
    exports_records::xel_third_histogram_read(bytes, counters)
}

#[unsafe(no_mangle)]
pub extern "C" fn xel_histogram_write(counters: &[Count], out: &mut [u8], written: &mut usize) -> u8
    ensures { (result ≡ code (write_histogram counters.now out.old))
        × (written.new ≡ value_or written.old (write_histogram counters.now out.old))
        × (out.new ≡ kept_by out.old (write_histogram counters.now out.old)) }
{
    exports_records::xel_histogram_write(counters, out, written)
}

#[unsafe(no_mangle)]
pub extern "C" fn xel_third_histogram_write(
    counters: &[Count],
    out: &mut [u8],
    written: &mut usize,
) -> u8
    ensures { (result ≡ code (write_third_histogram counters.now out.old))
        × (written.new ≡ value_or written.old (write_third_histogram counters.now out.old))
        × (out.new ≡ kept_by out.old (write_third_histogram counters.now out.old)) }
{
    exports_records::xel_third_histogram_write(counters, out, written)
}

// ---- queues
#[unsafe(no_mangle)]
pub extern "C" fn xel_queue_read(
    bytes: &[u8],
    maximum: &mut usize,
    head: &mut usize,
    held: &mut usize,
    store: &mut [f64],
) -> u8
    ensures { (result ≡ code (read_queue bytes.now store.old))
        × (maximum.new ≡ (value_or (record { maximum = maximum.old; head = head.old; held = held.old }) (read_queue bytes.now store.old)).maximum)
        × (head.new ≡ (value_or (record { maximum = maximum.old; head = head.old; held = held.old }) (read_queue bytes.now store.old)).head)
        × (held.new ≡ (value_or (record { maximum = maximum.old; head = head.old; held = held.old }) (read_queue bytes.now store.old)).held)
        × (store.new ≡ kept_by store.old (read_queue bytes.now store.old)) }
{
    exports_records::xel_queue_read(bytes, maximum, head, held, store)
}

#[unsafe(no_mangle)]
pub extern "C" fn xel_third_queue_read(
    bytes: &[u8],
    maximum: &mut usize,
    head: &mut usize,
    held: &mut usize,
    store: &mut [f64],
) -> u8
    ensures { (result ≡ code (read_third_queue bytes.now store.old))
        × (maximum.new ≡ (value_or (record { maximum = maximum.old; head = head.old; held = held.old }) (read_third_queue bytes.now store.old)).maximum)
        × (head.new ≡ (value_or (record { maximum = maximum.old; head = head.old; held = held.old }) (read_third_queue bytes.now store.old)).head)
        × (held.new ≡ (value_or (record { maximum = maximum.old; head = head.old; held = held.old }) (read_third_queue bytes.now store.old)).held)
        × (store.new ≡ kept_by store.old (read_third_queue bytes.now store.old)) }
{
    exports_records::xel_third_queue_read(bytes, maximum, head, held, store)
}

#[unsafe(no_mangle)]
pub extern "C" fn xel_queue_write(
    maximum: usize,
    head: usize,
    held: usize,
    store: &[f64],
    out: &mut [u8],
    written: &mut usize,
) -> u8
    ensures { (result ≡ code (write_queue (over (record { maximum = maximum; head = head; held = held }) store.now) out.old))
        × (written.new ≡ value_or written.old (write_queue (over (record { maximum = maximum; head = head; held = held }) store.now) out.old))
        × (out.new ≡ kept_by out.old (write_queue (over (record { maximum = maximum; head = head; held = held }) store.now) out.old)) }
{
    exports_records::xel_queue_write(maximum, head, held, store, out, written)
}

#[unsafe(no_mangle)]
pub extern "C" fn xel_third_queue_write(
    maximum: usize,
    head: usize,
    held: usize,
    store: &[f64],
    out: &mut [u8],
    written: &mut usize,
) -> u8
    ensures { (result ≡ code (write_third_queue (over (record { maximum = maximum; head = head; held = held }) store.now) out.old))
        × (written.new ≡ value_or written.old (write_third_queue (over (record { maximum = maximum; head = head; held = held }) store.now) out.old))
        × (out.new ≡ kept_by out.old (write_third_queue (over (record { maximum = maximum; head = head; held = held }) store.now) out.old)) }
{
    exports_records::xel_third_queue_write(maximum, head, held, store, out, written)
}

// ---- conversion
#[unsafe(no_mangle)]
pub extern "C" fn xel_record_convert(
    kind: u16,
    bytes: &[u8],
    out: &mut [u8],
    written: &mut usize,
) -> u8
    ensures { (result ≡ code (converted_asked kind bytes.now out.old))
        × (written.new ≡ value_or written.old (converted_asked kind bytes.now out.old))
        × (out.new ≡ kept_by out.old (converted_asked kind bytes.now out.old)) }
{
    exports_records::xel_record_convert(kind, bytes, out, written)
}
