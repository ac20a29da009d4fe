//! What holds of the definitions that the contracts cite.
ghost use Rattle.bench_capture.specs.Laws.{ClassicIsCapture, PcapngIsRead};

/// Of a capture in the classic format, the frames store the bytes that `capture` defines, and its first fault is the one that
/// `capture` defines.
pub fn law_of_classic_captures()
    ensures { ClassicIsCapture }
{}

/// Of a capture in the pcapng format, the frames are the packets that `bench_pcapng` defines, and its first fault has the number of
/// the one that `bench_pcapng` defines. So want of memory is never a fault of a file.
pub fn law_of_pcapng_captures()
    ensures { PcapngIsRead }
{}
