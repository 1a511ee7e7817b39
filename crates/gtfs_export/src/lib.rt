// The feed's C face as C links it: each function of `gtfs_c` under its own name, with the same clauses.
#![tactic(auto)]

ghost use Rattle.std.specs.Prelude.{◌≡◌, length};
ghost use Rattle.feed.specs.Rows.{time_rows_in, transfer_rows_in};
ghost use Rattle.feed.specs.Writing.{write_times, write_transfers};
ghost use Rattle.gtfs_write_times.specs.WrittenTimes.{written_times};
ghost use Rattle.gtfs_write_transfers.specs.WrittenTransfers.{written_transfers};
ghost use Rattle.gtfs_read.specs.Reads.{lent_feed};
ghost use Rattle.gtfs_c.specs.FeedFace.{writing_answer, writing_told, writing_left, FeedFaced};

// Writes rows of times as a file.
#[unsafe(no_mangle)]
pub extern "C" fn kiosk_gtfs_write_times(times: &[u32], out: &mut [u8], told: &mut [u32]) -> u32
    ensures value { result ≡ writing_answer (written_times times.now (length out.old)) told.old }
    ensures out_after { out.new ≡ writing_left (written_times times.now (length out.old)) told.old
        out.old (write_times (time_rows_in times.now)) }
    ensures told_after { told.new ≡ writing_told (written_times times.now (length out.old)) told.old }
{
    gtfs_c::kiosk_gtfs_write_times(times, out, told)
}

// Writes rows of transfers as a file.
#[unsafe(no_mangle)]
pub extern "C" fn kiosk_gtfs_write_transfers(
    transfers: &[u32],
    stops: u32,
    out: &mut [u8],
    told: &mut [u32],
) -> u32
    ensures value { result ≡ writing_answer (written_transfers transfers.now stops (length out.old)) told.old }
    ensures out_after { out.new ≡ writing_left (written_transfers transfers.now stops (length out.old))
        told.old out.old (write_transfers (transfer_rows_in transfers.now)) }
    ensures told_after { told.new ≡ writing_told (written_transfers transfers.now stops (length out.old))
        told.old }
{
    gtfs_c::kiosk_gtfs_write_transfers(transfers, stops, out, told)
}

// Reads both files into what is lent.
#[unsafe(no_mangle)]
pub extern "C" fn kiosk_gtfs_read(
    stop_times: &[u8],
    transfers: &[u8],
    times: &mut [u32],
    paths: &mut [u32],
    stops: &mut [u32],
    trips: &mut [u32],
    told: &mut [u32],
) -> u32
    ensures { FeedFaced stop_times.now transfers.now
        (lent_feed times.old paths.old stops.old trips.old) told.old result
        (lent_feed times.new paths.new stops.new trips.new) told.new }
{
    gtfs_c::kiosk_gtfs_read(stop_times, transfers, times, paths, stops, trips, told)
}
