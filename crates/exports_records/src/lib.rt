// The functions of the C interface of the records of histograms and of queues, of our own and of the third model's; exports_records_c has them for C, as include/xelamphoun.h declares them.
#![tactic(auto)]

ghost use Rattle.std.specs.Prelude.{◌≡◌};
ghost use Rattle.base_refusals.specs.Outcome.{kept_by};
ghost use Rattle.base_refusals.specs.Answer.{said};
ghost use Rattle.base_refusals.specs.Codes.{code, value_or};
ghost use Rattle.record_histogram.specs.Record.{read_histogram, read_third_histogram};
ghost use Rattle.record_histogram.specs.Writing.{write_histogram, write_third_histogram};
ghost use Rattle.history_queue.specs.Queue.{over};
ghost use Rattle.record_queue_reader.specs.QueueRecord.{read_queue, read_third_queue};
ghost use Rattle.record_queue_writer.specs.Writing.{write_queue, write_third_queue};
ghost use Rattle.record_conversion.specs.Conversion.{converted_asked};
ghost use Rattle.exports_records.specs.Inner.{code_said, value_said};

use base_refusals::Refusal;
use base_refusals::codes::number_of;
use bins::Count;
use history_queue::Queue;

// ---- how an answer is told
// How many bytes were written goes behind the pointer.
fn tell_written(answer: Result<usize, Refusal>, written: &mut usize) -> u8
    ensures { (result ≡ code_said (said answer)) × (written.new ≡ value_said written.old (said answer)) }
{
    match answer {
        Ok(n) => {
            *written = n;
            0
        }
        Err(refusal) => u8::from(refusal),
    }
}

// The queue's numbers go behind theirs.
fn tell_queue(
    answer: Result<Queue, Refusal>,
    maximum: &mut usize,
    head: &mut usize,
    held: &mut usize,
) -> u8
    ensures { (result ≡ code_said (said answer))
        × (maximum.new ≡ (value_said (record { maximum = maximum.old; head = head.old; held = held.old }) (said answer)).maximum)
        × (head.new ≡ (value_said (record { maximum = maximum.old; head = head.old; held = held.old }) (said answer)).head)
        × (held.new ≡ (value_said (record { maximum = maximum.old; head = head.old; held = held.old }) (said answer)).held) }
{
    match answer {
        Ok(queue) => {
            *maximum = queue.maximum;
            *head = queue.head;
            *held = queue.held;
            0
        }
        Err(refusal) => u8::from(refusal),
    }
}

// ---- histograms
pub fn xel_histogram_read(bytes: &[u8], counters: &mut [Count]) -> u8
    ensures { (result ≡ code (read_histogram bytes.now counters.old))
        × (counters.new ≡ kept_by counters.old (read_histogram bytes.now counters.old)) }
{
    number_of(record_histogram::reader::read_histogram(bytes, counters))
}

pub fn xel_third_histogram_read(bytes: &[u8], counters: &mut [Count]) -> u8
    ensures { (result ≡ code (read_third_histogram bytes.now counters.old))
        × (counters.new ≡ kept_by counters.old (read_third_histogram bytes.now counters.old)) }
{
    number_of(record_histogram::reader::read_third_histogram(bytes, counters))
}

pub fn xel_histogram_write(counters: &[Count], out: &mut [u8], written: &mut usize) -> u8
    ensures { (result ≡ code (write_histogram counters.now out.old))
        × (written.new ≡ value_or written.old (write_histogram counters.now out.old))
        × (out.new ≡ kept_by out.old (write_histogram counters.now out.old)) }
{
    let answer = record_histogram::writer::write_histogram(counters, out);
    tell_written(answer, written)
}

pub fn xel_third_histogram_write(counters: &[Count], out: &mut [u8], written: &mut usize) -> u8
    ensures { (result ≡ code (write_third_histogram counters.now out.old))
        × (written.new ≡ value_or written.old (write_third_histogram counters.now out.old))
        × (out.new ≡ kept_by out.old (write_third_histogram counters.now out.old)) }
{
    let answer = record_histogram::writer::write_third_histogram(counters, out);
    tell_written(answer, written)
}

// ---- queues
pub fn xel_queue_read(
    bytes: &[u8],
    maximum: &mut usize,
    head: &mut usize,
    held: &mut usize,
    store: &mut [f64],
) -> u8
    ensures { (result ≡ code (read_queue bytes.now store.old))
        × (maximum.new ≡ (value_or (record { maximum = maximum.old; head = head.old; held = held.old }) (read_queue bytes.now store.old)).maximum)
        × (head.new ≡ (value_or (record { maximum = maximum.old; head = head.old; held = held.old }) (read_queue bytes.now store.old)).head)
        × (held.new ≡ (value_or (record { maximum = maximum.old; head = head.old; held = held.old }) (read_queue bytes.now store.old)).held)
        × (store.new ≡ kept_by store.old (read_queue bytes.now store.old)) }
{
    let answer = record_queue_reader::read_queue(bytes, store);
    tell_queue(answer, maximum, head, held)
}

pub fn xel_third_queue_read(
    bytes: &[u8],
    maximum: &mut usize,
    head: &mut usize,
    held: &mut usize,
    store: &mut [f64],
) -> u8
    ensures { (result ≡ code (read_third_queue bytes.now store.old))
        × (maximum.new ≡ (value_or (record { maximum = maximum.old; head = head.old; held = held.old }) (read_third_queue bytes.now store.old)).maximum)
        × (head.new ≡ (value_or (record { maximum = maximum.old; head = head.old; held = held.old }) (read_third_queue bytes.now store.old)).head)
        × (held.new ≡ (value_or (record { maximum = maximum.old; head = head.old; held = held.old }) (read_third_queue bytes.now store.old)).held)
        × (store.new ≡ kept_by store.old (read_third_queue bytes.now store.old)) }
{
    let answer = record_queue_reader::read_third_queue(bytes, store);
    tell_queue(answer, maximum, head, held)
}

pub fn xel_queue_write(
    maximum: usize,
    head: usize,
    held: usize,
    store: &[f64],
    out: &mut [u8],
    written: &mut usize,
) -> u8
    ensures { (result ≡ code (write_queue (over (record { maximum = maximum; head = head; held = held }) store.now) out.old))
        × (written.new ≡ value_or written.old (write_queue (over (record { maximum = maximum; head = head; held = held }) store.now) out.old))
        × (out.new ≡ kept_by out.old (write_queue (over (record { maximum = maximum; head = head; held = held }) store.now) out.old)) }
{
    let given = Queue {
        maximum,
        head,
        held,
    };
    let answer = record_queue_writer::write_queue(given, store, out);
    tell_written(answer, written)
}

pub fn xel_third_queue_write(
    maximum: usize,
    head: usize,
    held: usize,
    store: &[f64],
    out: &mut [u8],
    written: &mut usize,
) -> u8
    ensures { (result ≡ code (write_third_queue (over (record { maximum = maximum; head = head; held = held }) store.now) out.old))
        × (written.new ≡ value_or written.old (write_third_queue (over (record { maximum = maximum; head = head; held = held }) store.now) out.old))
        × (out.new ≡ kept_by out.old (write_third_queue (over (record { maximum = maximum; head = head; held = held }) store.now) out.old)) }
{
    let given = Queue {
        maximum,
        head,
        held,
    };
    let answer = record_queue_writer::write_third_queue(given, store, out);
    tell_written(answer, written)
}

// ---- conversion
pub fn xel_record_convert(kind: u16, bytes: &[u8], out: &mut [u8], written: &mut usize) -> u8
    ensures { (result ≡ code (converted_asked kind bytes.now out.old))
        × (written.new ≡ value_or written.old (converted_asked kind bytes.now out.old))
        × (out.new ≡ kept_by out.old (converted_asked kind bytes.now out.old)) }
{
    let answer = record_conversion::convert_asked(kind as u64, bytes, out);
    tell_written(answer, written)
}
